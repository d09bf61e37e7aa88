// A card written as a table.
ghost use Rattle.std.specs.Prelude.{List, [], ◌∷◌, ℕ};
ghost use Rattle.card_fields.specs.Fields.{Has};
ghost use Rattle.wording.specs.Added.{Adds};
ghost use Rattle.card_table.specs.Written.{lines_of, table_of};

use card_fields::Fields;
use wording::Text;

// The line of a slot with these fields. Nothing for an empty slot; a filled one's kind is not 0 on a good card.
fn line(out: &mut Text, f: Fields)
    ensures { (s : List ℕ) → Has s f → Adds (lines_of (s ∷ [])) out.old out.new }
{
    if f.kind == 0 {
        return;
    }
    // `as`: the clause reads these numbers, and for a call's results the proof has other names (no plainer).
    out.fill(b"$,$,", &[f.recipe as u64, f.segment as u64]);
    card_words::kind(out, f.kind);
    out.fill(
        b",~,~,$\n",
        &[f.target as u64, f.rate as u64, f.hold as u64],
    );
}

// Of a good card.
pub fn write(out: &mut Text, card: &[u8])
    ensures { Adds (table_of card.now) out.old out.new }
{
    out.words(b"recipe,segment,kind,target,rate,hold\n");
    for i in 0..card.len() / 16 {
        line(out, card_fields::at(card, i));
    }
}
