ghost use Rattle.std.specs.Prelude.{◌≡◌, ◌+◌, ◌≤◌, length};
ghost use Rattle.mapfile.specs.Bytes.{word, long};

// The two bytes from `at` on, least byte first.
// Not one function with `long_at`: `from_le_bytes` is a function of each number type, over an array of its own length.
pub fn word_at(bytes: &[u8], at: usize) -> u16
    requires { at + 2 ≤ length bytes.now }
    ensures { result ≡ word bytes.now at }
{
    u16::from_le_bytes([bytes[at], bytes[at + 1]])
}

// The four bytes from `at` on, least byte first.
pub fn long_at(bytes: &[u8], at: usize) -> u32
    requires { at + 4 ≤ length bytes.now }
    ensures { result ≡ long bytes.now at }
{
    u32::from_le_bytes([bytes[at], bytes[at + 1], bytes[at + 2], bytes[at + 3]])
}
