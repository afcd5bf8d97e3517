use px_tree::ValueType;

/// How the registers of a function lie: its variables by their places, behind them registers for objects that live for a while, and
/// behind these the others. Module code is laid out like a function without variables and without a result.
#[derive(Clone, Copy)]
pub struct Layout {
    pub variables: u32,
    pub objects: u32,
    /// The type of the function's result.
    pub gives: ValueType,
    /// The place of None among the constants.
    pub none_at: u32,
}
