// The kinds of call on a filter: the number of each, and how many numbers a call of it has and writes.
ghost use Rattle.std.specs.Prelude.{◌≡◌};
ghost use Rattle.drifters_kind.specs.Kind.{kind_number, call_length, written_length, form_of, kind_by_number};
ghost use Rattle.drifters_kind.specs.declared.kind.Kind.{Kind};

// The kinds that a sheet or a log may hold, each with its number.
#[derive(Clone, Copy)]
pub enum Kind {
    Propagate = 1,
    Position = 2,
    Velocity = 3,
    Direction = 4,
    General = 5,
    State = 6,
    Scalar = 7,
}

// A number that no kind has.
#[derive(Clone, Copy)]
pub struct UnknownKind(pub u32);

// The number of a kind, how many numbers a call of it has, and how many it writes beside the filter. The number is a field, and no `From`: the definition
// `form_of` has the three in one record, of which the theorem `KindsFound` speaks.
#[derive(Clone, Copy)]
pub struct Form {
    pub number: u32,
    pub numbers: usize,
    pub written: usize,
}

// How many numbers a state has.
pub const STATE_LENGTH: usize = 33;

// The most numbers of a call.
pub const MOST_CALL_NUMBERS: usize = 75;

// The kind of a number. That each kind is found by its number here is the theorem `KindsFound`, that the kind of a number has it `KindsNumbered`.
impl TryFrom<u32> for Kind {
    type Error = UnknownKind;

    ghost try_from_gives = { λ n r. r ≡ kind_by_number n };

    #[tactic(auto, unfolding(crate::specs::Kind::find_kind))]
    fn try_from(n: u32) -> Result<Kind, UnknownKind> {
        match n {
            1 => Ok(Kind::Propagate),
            2 => Ok(Kind::Position),
            3 => Ok(Kind::Velocity),
            4 => Ok(Kind::Direction),
            5 => Ok(Kind::General),
            6 => Ok(Kind::State),
            7 => Ok(Kind::Scalar),
            _ => Err(UnknownKind(n)),
        }
    }
}

impl Kind {
    // Its form.
    pub fn form(self) -> Form
        ensures { result ≡ form_of self }
    {
        let (numbers, written) = match self {
            Kind::Propagate => (25, 0),
            Kind::Position => (12, 0),
            Kind::Velocity => (15, 0),
            Kind::Direction => (15, 0),
            Kind::General => (75, 0),
            Kind::State => (0, STATE_LENGTH),
            Kind::Scalar => (23, 0),
        };
        Form {
            number: self as u32,
            numbers,
            written,
        }
    }

    // How many numbers a call of it has.
    pub fn call_length(self) -> usize
        ensures { result ≡ call_length self }
    {
        self.form().numbers
    }

    // How many numbers a call of it writes beside the filter.
    pub fn written_length(self) -> usize
        ensures { result ≡ written_length self }
    {
        self.form().written
    }
}

// What the kinds of a sheet are read into: kinds, or their numbers.
pub trait FromKind: Copy {
    ghost from_kind: { Kind → Self };

    fn from_kind(kind: Kind) -> Self
        ensures { result ≡ from_kind kind };
}

impl FromKind for Kind {
    ghost from_kind = { λ kind. kind };

    fn from_kind(kind: Kind) -> Kind {
        kind
    }
}

impl FromKind for u32 {
    ghost from_kind = { kind_number };

    fn from_kind(kind: Kind) -> u32 {
        kind.form().number
    }
}
