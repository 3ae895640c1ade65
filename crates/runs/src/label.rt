// What a sheet says of one place: whether a run reaches it, at what cost, and by which link the run arrives. A station's own start has no link.
// A flag and no `Option` of a cost: the theory of sweeps reads the cost by itself.
#[derive(Clone, Copy)]
pub struct Label<C> {
    pub reached: bool,
    pub cost: C,
    pub link: Option<u32>,
}
