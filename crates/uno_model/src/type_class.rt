//! The classes of types, and the numbers by which they go over the wire.
ghost use Rattle.std.specs.Prelude.{◌≡◌, ◌≢◌, MatchOption};
ghost use Rattle.uno_model.specs.TypeClasses.{class_code};

/// The class of a type; the classes that no type has here, float, double and typedef, are left out.
#[derive(Clone, Copy, PartialEq, Eq)]
pub enum TypeClass {
    Void,
    Char,
    Boolean,
    Byte,
    Short,
    UnsignedShort,
    Long,
    UnsignedLong,
    Hyper,
    UnsignedHyper,
    Str,
    Kind,
    Any,
    Enum,
    Struct,
    Exception,
    Sequence,
    Interface,
}

impl TypeClass {
    /// Its number.
    pub fn code(self) -> u8
        ensures { result ≡ class_code self }
    {
        match self {
            TypeClass::Void => 0,
            TypeClass::Char => 1,
            TypeClass::Boolean => 2,
            TypeClass::Byte => 3,
            TypeClass::Short => 4,
            TypeClass::UnsignedShort => 5,
            TypeClass::Long => 6,
            TypeClass::UnsignedLong => 7,
            TypeClass::Hyper => 8,
            TypeClass::UnsignedHyper => 9,
            TypeClass::Str => 12,
            TypeClass::Kind => 13,
            TypeClass::Any => 14,
            TypeClass::Enum => 15,
            TypeClass::Struct => 17,
            TypeClass::Exception => 19,
            TypeClass::Sequence => 20,
            TypeClass::Interface => 22,
        }
    }

    /// The class with that number.
    pub fn of_code(code: u8) -> Option<TypeClass>
        ensures { MatchOption result ((class : TypeClass) → class_code class ≢ code) (λ class. class_code class ≡ code) }
    {
        match code {
            0 => Some(TypeClass::Void),
            1 => Some(TypeClass::Char),
            2 => Some(TypeClass::Boolean),
            3 => Some(TypeClass::Byte),
            4 => Some(TypeClass::Short),
            5 => Some(TypeClass::UnsignedShort),
            6 => Some(TypeClass::Long),
            7 => Some(TypeClass::UnsignedLong),
            8 => Some(TypeClass::Hyper),
            9 => Some(TypeClass::UnsignedHyper),
            12 => Some(TypeClass::Str),
            13 => Some(TypeClass::Kind),
            14 => Some(TypeClass::Any),
            15 => Some(TypeClass::Enum),
            17 => Some(TypeClass::Struct),
            19 => Some(TypeClass::Exception),
            20 => Some(TypeClass::Sequence),
            22 => Some(TypeClass::Interface),
            _ => None,
        }
    }
}
