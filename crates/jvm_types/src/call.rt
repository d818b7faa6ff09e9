/// The three instructions that call a method.
#[derive(Clone, Copy, Debug, PartialEq, Eq)]
pub enum Call {
    Virtual,
    Special,
    Static,
}
