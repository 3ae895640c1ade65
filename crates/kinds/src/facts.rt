use mapfile::link::Link;
use mapfile::signal::Signal;

// All that a kind may know of a link: the link and the signal at its end, if there is one.
#[derive(Clone, Copy)]
pub struct LinkFacts {
    pub link: Link,
    pub signal: Option<Signal>,
}
