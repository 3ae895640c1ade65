// What the programs read: the map file, and standard input line by line.
use super::line::content;
use std::io::{BufRead, BufReader, Read};
use std::{fs, io};

// The bytes of map.bin; a file that does not open counts as empty.
pub fn map_file(rt: &HostRuntime) -> Vec<u8> {
    fs::read(rt, "map.bin").unwrap_or_else(|_| Vec::new(rt.alloc()))
}

// Reads the next line, with the byte 10 that ends it, in place of what `line` held. False where the input has ended.
pub fn next_line<R: Read>(input: &mut BufReader<R>, line: &mut Vec<u8>) -> io::Result<bool> {
    line.clear();
    Ok(input.read_until(b'\n', line)? > 0)
}

// Takes each line of standard input in turn. Memory is held for one line at a time.
pub fn each_line<F: FnMut(&[u8]) -> io::Result<()> + Drop>(
    rt: &HostRuntime,
    mut take: F,
) -> io::Result<()>
    requires { F.IsAlwaysCallable take }
{
    let mut input = BufReader::new(rt.alloc(), rt.stdin())?;
    let mut line = Vec::new(rt.alloc());
    // The input may never end, and a loop has to.
    for _ in 0..u64::MAX {
        if !next_line(&mut input, &mut line)? {
            break;
        }
        take(content(line.as_slice()))?;
    }
    Ok(())
}
