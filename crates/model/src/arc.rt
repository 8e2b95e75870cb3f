/// An arc: the item numbered `to` needs what the item numbered `from` delivers.
#[derive(Clone, Copy, Default)]
pub struct Arc {
    pub from: u8,
    pub to: u8,
}
