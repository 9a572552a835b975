//! The odd colours, and what there is for each of them.
ghost use Rattle.std.specs.Prelude.{◌≡◌};
ghost use Rattle.table.specs.Odd.{odd, at};

/// The colours that have ranks.
#[derive(Clone, Copy, PartialEq, Eq, Debug)]
pub enum OddColour {
    One,
    Three,
    Five,
    Seven,
}

impl OddColour {
    /// All of them, from the smallest on.
    pub const ALL: [OddColour; 4] = [
        OddColour::One,
        OddColour::Three,
        OddColour::Five,
        OddColour::Seven,
    ];

    pub fn number(self) -> u16
        ensures { result ≡ odd self }
    {
        match self {
            OddColour::One => 1,
            OddColour::Three => 3,
            OddColour::Five => 5,
            OddColour::Seven => 7,
        }
    }
}

/// One value for each odd colour.
#[derive(Clone, Copy, PartialEq, Eq, Debug)]
pub struct PerColour<T> {
    pub one: T,
    pub three: T,
    pub five: T,
    pub seven: T,
}

impl<T> PerColour<T> {
    /// What the function gives for each colour.
    pub fn from_fn<F: Fn(OddColour) -> T>(f: F) -> PerColour<T>
        requires one { F.pre f OddColour.One }
        requires three { F.pre f OddColour.Three }
        requires five { F.pre f OddColour.Five }
        requires seven { F.pre f OddColour.Seven }
        ensures one { F.post f OddColour.One result.one }
        ensures three { F.post f OddColour.Three result.three }
        ensures five { F.post f OddColour.Five result.five }
        ensures seven { F.post f OddColour.Seven result.seven }
    {
        PerColour {
            one: f(OddColour::One),
            three: f(OddColour::Three),
            five: f(OddColour::Five),
            seven: f(OddColour::Seven),
        }
    }

    /// The value of a colour.
    pub fn get(&self, colour: OddColour) -> &T
        ensures { result.now ≡ at colour self.now }
    {
        match colour {
            OddColour::One => &self.one,
            OddColour::Three => &self.three,
            OddColour::Five => &self.five,
            OddColour::Seven => &self.seven,
        }
    }
}
