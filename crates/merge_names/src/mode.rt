/// What happens to an export whose name repeats an earlier one.
#[derive(Clone, Copy, Debug, PartialEq, Eq)]
pub enum Mode {
    /// It is a conflict.
    Refuse,
    /// It gets its name, `_` and the least number from 1 that makes a name different from all
    /// others.
    Rename,
    /// It is dropped.
    Skip,
}
