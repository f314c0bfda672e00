// What enter and strike answer, and why they are refused. `specs/Rows.antt` gives each refusal its
// number and its place.
ghost use Rattle.std.specs.Prelude.{◌≡◌};
ghost use Rattle.model.specs.Answers.{number_of};
ghost use Rattle.recipes.specs.Rows.{section_of, refused_of};
ghost use Rattle.recipes.specs.declared.refusal.RecipeRefusal.TheVariants.{Line};

use records::refusal::Refusal;
use std::error::Error;
use std::fmt;

// Which of a recipe's two sections.
#[derive(Debug, Clone, Copy, PartialEq, Eq)]
pub enum Which {
    First,
    Second,
}

impl Which {
    // Its number, as answers say it.
    pub fn number(self) -> u8
        ensures { result ≡ number_of (section_of self) }
    {
        match self {
            Which::First => 1,
            Which::Second => 2,
        }
    }
}

// A section, and how many of its records are live.
#[derive(Debug, Clone, Copy, PartialEq, Eq)]
pub struct Counted {
    pub section: Which,
    pub count: usize,
}

#[derive(Debug, Clone, Copy, PartialEq, Eq)]
pub enum RecipeRefusal<'a> {
    // the line reads as no record
    Line(Refusal<'a>),
    // the record is not live, and no slot is free for it
    Full,
    // the record to strike is not live
    NotLive,
}

impl RecipeRefusal<'_> {
    pub fn number(&self) -> u8
        ensures { result ≡ (refused_of self.now).number }
    {
        match self {
            RecipeRefusal::Line(refusal) => refusal.number(),
            RecipeRefusal::Full => 31,
            RecipeRefusal::NotLive => 32,
        }
    }

    // The offset in the line that the refusal is about.
    pub fn place(&self) -> usize
        ensures { result ≡ (refused_of self.now).place }
    {
        match self {
            RecipeRefusal::Line(refusal) => refusal.place(),
            RecipeRefusal::Full | RecipeRefusal::NotLive => 0,
        }
    }
}

impl<'a> From<Refusal<'a>> for RecipeRefusal<'a> {
    ghost from_gives = { λ e r. r ≡ Line e };

    fn from(refusal: Refusal<'a>) -> RecipeRefusal<'a> {
        RecipeRefusal::Line(refusal)
    }
}

impl fmt::Display for RecipeRefusal<'_> {
    fn fmt<W: fmt::Write>(&self, f: &mut fmt::Formatter<W>) -> fmt::Result {
        match self {
            RecipeRefusal::Line(refusal) => write!(f, "{refusal}"),
            RecipeRefusal::Full => write!(f, "the section has no free slot for the record"),
            RecipeRefusal::NotLive => write!(f, "the record is not live"),
        }
    }
}

impl Error for RecipeRefusal<'_> {}
