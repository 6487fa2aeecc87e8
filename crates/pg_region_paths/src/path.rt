//! Root paths: where pointers come from.

ghost use Rattle.std.specs.Prelude.{◌≡◌, ◌+◌, ◌%◌, ◌^◌};
ghost use Rattle.pg_region_paths.specs.Paths.{one_more, appended, shifted, loaded, composed, rooted};

/// Where a root path begins: at a global's pointer, at a constant, at a register's value, or, in what a function
/// accesses, at the value of one of its parameters.
#[derive(Clone, Copy, Debug, PartialEq, Eq)]
pub enum Root {
    Global(u32),
    Const(u64),
    Register(u32),
    Param(u32),
}

/// The loads of a root path, four at most: of each the offset in bytes, modulo two to the 21, from the pointer before
/// it at which it reads.
#[derive(Clone, Copy, Debug, PartialEq, Eq)]
pub enum Loads {
    Never,
    Once(u64),
    Twice(u64, u64),
    Thrice(u64, u64, u64),
    FourTimes(u64, u64, u64, u64),
}

/// A root path: a pointer that is loaded from memory, by its root and the loads from there on.
#[derive(Clone, Copy, Debug, PartialEq, Eq)]
pub struct RootPath {
    pub root: Root,
    pub loads: Loads,
}

/// The root path of a value, and by how many bytes it was moved since the last load, where that is a constant.
#[derive(Clone, Copy, Debug, PartialEq, Eq)]
pub struct Path {
    pub root: Root,
    pub loads: Loads,
    pub added: Option<u64>,
}

impl Loads {
    /// These loads and one more, if there are at most four.
    pub fn push(self, offset: u64) -> Option<Loads>
        ensures loads { result ≡ one_more self offset }
    {
        match self {
            Loads::Never => Some(Loads::Once(offset)),
            Loads::Once(a) => Some(Loads::Twice(a, offset)),
            Loads::Twice(a, b) => Some(Loads::Thrice(a, b, offset)),
            Loads::Thrice(a, b, c) => Some(Loads::FourTimes(a, b, c, offset)),
            Loads::FourTimes(..) => None,
        }
    }

    /// These loads and then others, if there are at most four.
    pub fn append(self, others: Loads) -> Option<Loads>
        ensures loads { result ≡ appended self others }
    {
        match others {
            Loads::Never => Some(self),
            Loads::Once(a) => self.push(a),
            Loads::Twice(a, b) => self.push(a)?.push(b),
            Loads::Thrice(a, b, c) => self.push(a)?.push(b)?.push(c),
            Loads::FourTimes(a, b, c, d) => self.push(a)?.push(b)?.push(c)?.push(d),
        }
    }

    /// The same loads from a pointer that was moved by so many bytes.
    pub fn shift(self, by: u64) -> Loads
        ensures loads { result ≡ shifted by self }
    {
        match self {
            Loads::Never => Loads::Never,
            Loads::Once(a) => Loads::Once(moved(by, a)),
            Loads::Twice(a, b) => Loads::Twice(moved(by, a), b),
            Loads::Thrice(a, b, c) => Loads::Thrice(moved(by, a), b, c),
            Loads::FourTimes(a, b, c, d) => Loads::FourTimes(moved(by, a), b, c, d),
        }
    }
}

/// The sum of two offsets, modulo two to the 21.
fn moved(by: u64, offset: u64) -> u64
    ensures { result ≡ (by % 2 ^ 21 + offset % 2 ^ 21) % 2 ^ 21 }
{
    (by % 0x20_0000 + offset % 0x20_0000) % 0x20_0000
}

impl Path {
    /// The path of the value of a root.
    pub fn at(root: Root) -> Path
        ensures path { result ≡ rooted root }
    {
        Path {
            root,
            loads: Loads::Never,
            added: Some(0),
        }
    }

    /// The path of what is loaded at a value, if that was moved by a constant since the last load and there are at
    /// most four loads.
    pub fn load(self) -> Option<Path>
        ensures path { result ≡ loaded self }
    {
        let loads = self.loads.push(self.added?)?;
        Some(Path {
            root: self.root,
            loads,
            added: Some(0),
        })
    }

    /// The root path of a callee's access from a parameter, whose argument has this path.
    pub fn follow(self, loads: Loads) -> Option<RootPath>
        ensures path { result ≡ composed self loads }
    {
        let loads = match loads {
            Loads::Never => self.loads,
            _ => self.loads.append(loads.shift(self.added?))?,
        };
        Some(RootPath {
            root: self.root,
            loads,
        })
    }

    /// The root path alone.
    pub fn root_path(self) -> RootPath
        ensures path { result ≡ record { root = self.root; loads = self.loads } }
    {
        RootPath {
            root: self.root,
            loads: self.loads,
        }
    }
}
