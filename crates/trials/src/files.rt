use std::alloc::{AllocError, Global};

// A link's signal number where it has none. The files are written from the format, and use nothing of its reader.
const NO_SIGNAL: u16 = 65535;

// Numbers of two bytes, least byte first.
fn words(file: &mut Vec<u8>, words: &[u16]) -> Result<(), AllocError> {
    for word in words {
        file.extend_from_slice(&word.to_le_bytes())?;
    }
    Ok(())
}

// A line of the contents.
fn contents_line(file: &mut Vec<u8>, kind: u8, count: u16, start: u32) -> Result<(), AllocError> {
    words(file, &[u16::from(kind), count])?;
    file.extend_from_slice(&start.to_le_bytes())
}

fn contents(file: &mut Vec<u8>, places: u16, links: u16, signals: u16) -> Result<(), AllocError> {
    let links_start = 26 + 4 * u32::from(places);
    let signals_start = links_start + 12 * u32::from(links);
    file.extend_from_slice(&[1, 3])?;
    contents_line(file, 1, places, 26)?;
    contents_line(file, 2, links, links_start)?;
    contents_line(file, 3, signals, signals_start)
}

// A link with a running time, without class, signal and grade.
pub fn plain_link(file: &mut Vec<u8>, from: u16, to: u16, run: u16) -> Result<(), AllocError> {
    words(file, &[from, to, run, 0, NO_SIGNAL, 0])
}

// The contents and places of a map, for its links and signals to follow.
pub fn begun(heap: Global, places: u16, links: u16, signals: u16) -> Result<Vec<u8>, AllocError> {
    let mut file = Vec::new(heap);
    contents(&mut file, places, links, signals)?;
    for place in 0..places {
        file.extend_from_slice(&(u32::from(place) + 1).to_le_bytes())?;
    }
    Ok(file)
}

// A link that leads back to its start, with a signal if there are any.
fn link(file: &mut Vec<u8>, number: u16, places: u16, signals: u16) -> Result<(), AllocError> {
    let place = number.min(places.saturating_sub(1));
    let signal = number.checked_rem(signals).unwrap_or(NO_SIGNAL);
    words(file, &[place, place, number, number % 16, signal, 1000])
}

// A signal whose cycle, start and green are as long as they may be.
fn signal(file: &mut Vec<u8>) -> Result<(), AllocError> {
    words(file, &[2400, 2399, 2400, 0])
}

// A map file with so many places, links and signals, whose records keep their rules.
pub fn lawful(heap: Global, places: u16, links: u16, signals: u16) -> Result<Vec<u8>, AllocError> {
    let mut file = begun(heap, places, links, signals)?;
    for number in 0..links {
        link(&mut file, number, places, signals)?;
    }
    for _ in 0..signals {
        signal(&mut file)?;
    }
    Ok(file)
}

// A copy of a file with one byte changed.
pub fn patched(heap: Global, file: &[u8], at: usize, value: u8) -> Result<Vec<u8>, AllocError> {
    let mut copy = file.to_vec(heap)?;
    if let Some(byte) = copy.get_mut(at) {
        *byte = value;
    }
    Ok(copy)
}
