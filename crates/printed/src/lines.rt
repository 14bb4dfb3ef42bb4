// The lines of a listing, each by its pattern.
ghost use Rattle.std.specs.Prelude.{◌≡◌, [], ◌∷◌, map, nat_abs};
ghost use Rattle.model.specs.Answer.{told};
ghost use Rattle.text.specs.Line.{line_of, lines_of};
ghost use Rattle.text.specs.Page.{Adds};
ghost use Rattle.printed.specs.Text.{first_pattern, frame_pattern, worth_pattern, refused_line, frame_rows};

use model::Refusal;
use text::Page;

// The first line: frames, capacity, needed capacity.
pub fn put_first(page: &mut Page<'_>, frames: u64, capacity: u64, needed: u64)
    ensures { Adds (line_of first_pattern (frames ∷ capacity ∷ needed ∷ [])) page.old page.new }
{
    page.put_line(
        b"frames # capacity # needed #\n",
        &[frames, capacity, needed],
    );
}

// The last line: the sums of the three house curves.
pub fn put_worth(page: &mut Page<'_>, curve0: u64, curve1: u64, curve2: u64)
    ensures { Adds (line_of worth_pattern (curve0 ∷ curve1 ∷ curve2 ∷ [])) page.old page.new }
{
    page.put_line(b"worth # # #\n", &[curve0, curve1, curve2]);
}

// The lines of all frames: each frame's number, its budget, the amount of the charge after it, its loss. They are three
// lists, as the tracer fills them: C lends it each for itself.
pub fn put_frames(page: &mut Page<'_>, budgets: &[u32], charges: &[i64], losses: &[u32])
    ensures { Adds (lines_of frame_pattern
        (frame_rows 1 budgets.now (map nat_abs charges.now) losses.now))
        page.old page.new }
{
    for (i, ((&budget, &charge), &loss)) in budgets.iter().zip(charges).zip(losses).enumerate() {
        page.put_line(
            b"# # # #\n",
            &[
                i as u64 + 1,
                budget as u64,
                charge.unsigned_abs(),
                loss as u64,
            ],
        );
    }
}

// The line of a refusal: its number and its P.
pub fn put_refused(page: &mut Page<'_>, refusal: Refusal)
    ensures { Adds (refused_line (told refusal)) page.old page.new }
{
    page.put_line(b"refused # #\n", &[refusal.number() as u64, refusal.p()]);
}
