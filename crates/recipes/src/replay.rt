// Calls made one after another on a recipe of their own, and the sheet that they lead to.
ghost use Rattle.std.specs.Prelude.{◌≡◌, [], map, length};
ghost use Rattle.model.specs.History.{over};
ghost use Rattle.model.specs.Law.{SheetsIdentifyRecipes};
ghost use Rattle.sheets.specs.Refusals.{wrote};
ghost use Rattle.recipes.specs.Calls.{after_all, begun};
ghost use Rattle.recipes.specs.Commands.{making};
ghost use Rattle.recipes.specs.Reached.{WritesSheet};

use crate::recipe::Recipe;
use records::kind::{LineKind, RecordKind, SheetKind};
use sheets::TooShort;

// A call to be made.
#[derive(Clone, Copy)]
pub enum Command<'a> {
    Enter(&'a [u8]),
    Strike(&'a [u8]),
    Clear,
}

// Opens a recipe on the two runs of slots, one of each kind's rows, makes the calls in turn,
// refused ones too, and writes the sheet.
pub fn replay<A: SheetKind, B: SheetKind>(
    commands: &[Command],
    first: &mut [A],
    second: &mut [B],
    out: &mut [u8],
) -> Result<usize, TooShort>
    ensures sheet { WritesSheet (over A.means B.means (length first.old) (length second.old)) (making commands.now []) out.old (wrote result) out.new }
    ensures first { map A.numbers first.new
        ≡ (after_all A.means B.means (making commands.now []) (begun (map A.numbers first.old) (map B.numbers second.old))).one.slots }
    ensures second { map B.numbers second.new
        ≡ (after_all A.means B.means (making commands.now []) (begun (map A.numbers first.old) (map B.numbers second.old))).two.slots }
    ensures sheets_identify_recipes { SheetsIdentifyRecipes A.means B.means }
{
    let mut recipe = Recipe::open(first, second);
    for command in commands {
        recipe.make(command);
    }
    recipe.write(out)
}
