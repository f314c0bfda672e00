// A recipe text: its lines entered in turn, and the sheet that they lead to.
ghost use Rattle.std.specs.Prelude.{◌≡◌, ℕ, List, [], map};
ghost use Rattle.records.specs.Text.{lines_of};
ghost use Rattle.recipes.specs.Calls.{after_all};
ghost use Rattle.recipes.specs.Rows.{both, SameSlots};
ghost use Rattle.recipes.specs.Taken.{Ran, ending_of};
ghost use Rattle.recipes.specs.Texts.{entering, TakesText};
ghost use Rattle.recipes.specs.declared.text.TextRefusal.TheVariants.{Line, TooShort as NoRoom};

use crate::recipe::Recipe;
use crate::refusal::RecipeRefusal;
use records::kind::{LineKind, RecordKind, SheetKind};
use records::reader::LineReader;
use sheets::TooShort;

// How many bytes each frame of a sheet has.
#[derive(Debug, Clone, Copy, PartialEq, Eq)]
pub struct FrameLengths {
    pub first: usize,
    pub second: usize,
}

// A line that is refused, by its number, counted from 1 with empty lines.
#[derive(Debug, Clone, Copy, PartialEq, Eq)]
pub struct RefusedLine<'t> {
    pub line: usize,
    pub refusal: RecipeRefusal<'t>,
}

#[derive(Debug, Clone, Copy, PartialEq, Eq)]
pub enum TextRefusal<'t> {
    // the first line that is refused
    Line(RefusedLine<'t>),
    // the buffer is shorter than the sheet
    TooShort,
}

impl<'t> From<RefusedLine<'t>> for TextRefusal<'t> {
    ghost from_gives = { λ l r. r ≡ Line l };

    fn from(line: RefusedLine<'t>) -> TextRefusal<'t> {
        TextRefusal::Line(line)
    }
}

impl From<TooShort> for TextRefusal<'_> {
    ghost from_gives = { λ _ r. r ≡ NoRoom };

    fn from(_: TooShort) -> Self {
        TextRefusal::TooShort
    }
}

// Enters the lines of the text in turn, empty ones left out, up to the first that is refused.
fn enter_lines<'t, A: SheetKind, B: SheetKind>(
    text: &'t [u8],
    recipe: &mut Recipe<A, B>,
) -> Result<(), RefusedLine<'t>>
    ensures lines { (taken : List (List ℕ)) × Ran A.means B.means (lines_of text.now) (both A.numbers B.numbers recipe.old) taken result
        × (both A.numbers B.numbers recipe.new
        ≡ after_all A.means B.means (entering taken []) (both A.numbers B.numbers recipe.old)) }
    ensures slots { SameSlots recipe.new recipe.old }
{
    for (i, line) in LineReader::new(text).enumerate() {
        if !line.is_empty() {
            recipe.enter(line).map_err(|refusal| RefusedLine {
                line: i + 1,
                refusal,
            })?;
        }
    }
    Ok(())
}

// Opens a recipe on the two runs of slots, one of each kind's rows, enters the lines of the text in
// turn, empty ones left out, and writes the sheet into the buffer's first bytes; or says which line
// is refused first, and why.
pub fn enter_text<'t, A: SheetKind, B: SheetKind>(
    text: &'t [u8],
    first: &mut [A],
    second: &mut [B],
    out: &mut [u8],
) -> Result<FrameLengths, TextRefusal<'t>>
    ensures { TakesText A.means B.means (map A.numbers first.old) (map B.numbers second.old) text.now out.old
        (ending_of result) (map A.numbers first.new) (map B.numbers second.new) out.new }
{
    let mut recipe = Recipe::open(first, second);
    enter_lines(text, &mut recipe)?;
    let size = recipe.write(out)?;
    let first = recipe.first_frame_size();
    Ok(FrameLengths {
        first,
        second: size - first,
    })
}
