// An open link: its number, the place that it leaves, and the place that it leads to.
#[derive(Clone, Copy, Default)]
pub struct OpenLink {
    pub number: u16,
    pub tail: u16,
    pub head: u16,
}
