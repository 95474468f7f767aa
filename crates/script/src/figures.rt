use values::Shares;

/// The numbers of a value as a script writes it, of either kind. They may break the rule of their kind.
#[derive(Clone, Copy, PartialEq, Eq, Debug)]
pub enum Figure {
    /// One number: a setpoint.
    Setpoint(u16),
    /// Four numbers: a sheet.
    Sheet(Shares),
}
