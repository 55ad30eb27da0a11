//! How much of each kind a call takes before it refuses.

ghost use Rattle.std.specs.Prelude.{◌≡◌, ◌^◌};

/// The limits of a call.
#[derive(Clone, Copy, Debug, PartialEq, Eq)]
pub struct Limits {
    /// Bytes of input.
    pub bytes: u64,
    /// Paths that have a number.
    pub paths: u32,
    /// Packages of one metadata document.
    pub packages: u32,
    /// Targets of one metadata document.
    pub targets: u32,
    /// Crates of one project and of one graph.
    pub crates: u32,
}

impl Limits {
    /// The greatest limits, which hold where none are given.
    pub fn greatest() -> Self
        ensures { result ≡ record {
          bytes = 2 ^ 30;
          paths = 2 ^ 20;
          packages = 2 ^ 16;
          targets = 2 ^ 18;
          crates = 2 ^ 18;
        } }
    {
        Limits {
            bytes: 1 << 30,
            paths: 1 << 20,
            packages: 1 << 16,
            targets: 1 << 18,
            crates: 1 << 18,
        }
    }
}

/// The kind of thing of which there is too much.
#[derive(Clone, Copy, Debug, PartialEq, Eq)]
pub enum Limit {
    Bytes,
    Paths,
    Packages,
    Targets,
    Crates,
}
