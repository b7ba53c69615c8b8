//! Why a command ends without what it was asked for.

ghost use Rattle.std.specs.Prelude.{◌≡◌};
ghost use Rattle.eco_inputs.specs.Reading.{halt_as};

/// Why a command stops: for a cause of its own, or for one that every command may have.
#[derive(Drop)]
pub enum Halt<'a, C> {
    /// It stops for this.
    For(C),
    /// The store could not read the file at this path.
    Unread(&'a str),
    /// Memory could not be had.
    OutOfMemory,
}

impl<'a, O> Halt<'a, O> {
    /// The same halt with another cause, which is made of its own.
    pub fn map<C, F: FnOnce(O) -> C>(self, make: F) -> Halt<'a, C>
        requires { F.IsAlwaysCallable make }
        ensures { (given : O → C) → ((own : O) (made : C) → F.post make own made → made ≡ given own) → result ≡ halt_as given self.entry }
    {
        match self {
            Halt::For(own) => Halt::For(make(own)),
            Halt::Unread(path) => Halt::Unread(path),
            Halt::OutOfMemory => Halt::OutOfMemory,
        }
    }
}

/// Why the bytes of a file give nothing.
#[derive(Drop)]
pub enum FileError<F> {
    /// They are more than are taken.
    TooLong,
    /// They have this error.
    Within(F),
}
