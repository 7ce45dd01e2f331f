//! The first line of a script. It names the bit order and the type of the set.
ghost use Rattle.std.specs.Prelude.{◌≡◌};

/// The order in which the bits of each word are indexed.
#[derive(Clone, Copy)]
pub enum Order {
    /// `be`: index 0 is the bit of least weight.
    Big,
    /// `le`: index 0 is the bit of greatest weight.
    Little,
}

/// A type that the set of a script may have.
#[derive(Clone, Copy)]
pub enum SetType {
    /// `u8`
    U8,
    /// `[u8; 4]`
    U8x4,
    /// `[[u8; 2]; 2]`
    U8x2x2,
    /// `[u16; 2]`
    U16x2,
    /// `i32`
    I32,
}

impl SetType {
    ghost use Rattle.bittle_script.specs.Headers.{set_type_of};

    /// Returns the type with this name, or `None` if no type has it.
    fn parse(name: &[u8]) -> Option<SetType>
        ensures { result ≡ set_type_of name.now }
    {
        if name == b"u8".as_slice() {
            Some(SetType::U8)
        } else if name == b"u8x4".as_slice() {
            Some(SetType::U8x4)
        } else if name == b"u8x2x2".as_slice() {
            Some(SetType::U8x2x2)
        } else if name == b"u16x2".as_slice() {
            Some(SetType::U16x2)
        } else if name == b"i32".as_slice() {
            Some(SetType::I32)
        } else {
            None
        }
    }
}

/// The bit order and the type of the set that the first line of a script names.
#[derive(Clone, Copy)]
pub struct Header {
    /// The order in which the set is read.
    pub order: Order,
    /// The type of the set.
    pub set_type: SetType,
}

impl Header {
    ghost use Rattle.bittle_script.specs.Headers.{header_of};

    /// Returns the bit order and the type that a line such as `be u8x4` names, or `None` if the
    /// line does not name both.
    pub fn parse(line: &[u8]) -> Option<Header>
        ensures { result ≡ header_of line.now }
    {
        let (order, name) = if let Some(name) = line.strip_prefix(b"be ") {
            (Order::Big, name)
        } else {
            (Order::Little, line.strip_prefix(b"le ")?)
        };
        let set_type = SetType::parse(name)?;
        Some(Header { order, set_type })
    }
}
