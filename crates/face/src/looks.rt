// What a face tells of a construction before its entries are asked for.
#[derive(Clone, Copy, PartialEq, Eq, Debug)]
pub struct Look {
    // The largest size that a sign of this key may have.
    pub limit: u32,
    // The least overlap of two parts that are joined.
    pub least: u32,
    // How many variants there are.
    pub variants: u16,
    // How many parts there are.
    pub parts: u16,
}
