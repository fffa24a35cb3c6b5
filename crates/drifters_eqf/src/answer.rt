// What a call answers, and the refusals with their numbers.
ghost use Rattle.drifters_eqf.specs.Answer.{refusal_number};
ghost use Rattle.std.specs.Prelude.{◌≡◌};

// Why a call is refused (docs/MANUAL.md); each with its number.
#[derive(Clone, Copy, PartialEq, Eq, Debug)]
pub enum Refusal {
    // A lent run is not of its stated length.
    Length = 1,
    // A number of the filter or the call is not finite.
    Blank = 2,
    // A rotation vector's norm is not a number at most the limit of an exponential.
    Turn = 3,
    // The covariance of an innovation, raw or inflated, has no Cholesky factor.
    Pivot = 4,
    // A result is not finite.
    Range = 5,
    // A call sheet breaks its layout or cannot be read.
    Sheet = 6,
    // A vector that is to be normalised has norm 0.
    Null = 7,
    // The alphas of a filter that is to have one have not all the same bits.
    Unequal = 8,
}

impl From<Refusal> for u32 {
    ghost from_gives = { λ r n. n ≡ refusal_number r };

    fn from(refusal: Refusal) -> u32 {
        refusal as u32
    }
}

// The normalised innovation squared of an accepted update, nothing of another call that is accepted, or why the call is refused.
pub type Answer = Result<Option<f64>, Refusal>;
