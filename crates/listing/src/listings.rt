// The listing of a word file.
ghost use Rattle.std.specs.Prelude.{◌≡◌, true, [], ◌∷◌, length};
ghost use Rattle.model.specs.Answer.{asked, leasts_lent, mosts_lent};
ghost use Rattle.model.specs.Refusals.{is_none, plan_refusal};
ghost use Rattle.text.specs.Page.{Adds};
ghost use Rattle.printed.specs.Text.{plan_text, request_text, listing};
ghost use Rattle.listing.specs.Says.{AddsOrRefuses, ListSays};

use grader::sums_of;
use model::limits::MAX_FRAMES;
use model::{Lists, Refusal, Request};
use planner::needed::needed_capacity;
use planner::plan::write_plan;
use printed::lines::{put_first, put_frames, put_refused, put_worth};
use request::{Whole, check_plan};
use text::Page;
use tracer::fill;
use wordfile::read;

// Puts the listing of a request that is not refused, with lists lent for its plan, the charges after its frames and
// their losses: three lists, as the tracer fills them, since C lends it each for itself.
fn put_plan(
    page: &mut Page<'_>,
    request: Request,
    budgets: &mut [u32],
    charges: &mut [i64],
    losses: &mut [u32],
)
    requires not_refused { is_none (plan_refusal (asked request) (leasts_lent request) (mosts_lent request)
        (length budgets.old ∷ [])) ≡ true }
    requires charges_len { length charges.old ≡ length request.lists.harvest.now }
    requires losses_len { length losses.old ≡ length request.lists.harvest.now }
    ensures { Adds (plan_text (asked request.entry)) page.old page.new }
{
    let Request { figures, lists } = request;
    let needed = needed_capacity(request);
    write_plan(request, budgets);
    fill(figures, lists.harvest, budgets, charges, losses);
    let sums = sums_of(budgets);
    put_first(
        page,
        lists.harvest.len() as u64,
        figures.capacity as u64,
        needed,
    );
    put_frames(page, budgets, charges, losses);
    put_worth(page, sums.curve0, sums.curve1, sums.curve2);
}

// Puts the listing of a request whose lists are of one length, unless its plan is refused.
fn put_request(page: &mut Page<'_>, whole: Whole) -> Result<(), Refusal>
    ensures { AddsOrRefuses (request_text (asked whole.entry.request)) page.old page.new result }
{
    let request = whole.request;
    let k = request.lists.harvest.len();
    check_plan(request, k)?;
    // Fixed memory, with room for every frame: there is no heap.
    let mut budgets = [0u32; MAX_FRAMES];
    let mut charges = [0i64; MAX_FRAMES];
    let mut losses = [0u32; MAX_FRAMES];
    put_plan(
        page,
        request,
        &mut budgets[..k],
        &mut charges[..k],
        &mut losses[..k],
    );
    Ok(())
}

// Puts the listing of a word file, unless reading it or its plan is refused.
fn put_file(page: &mut Page<'_>, file: &[u8]) -> Result<(), Refusal>
    ensures { AddsOrRefuses (listing file.now) page.old page.new result }
{
    // Fixed memory, with room for every frame: there is no heap.
    let mut harvest = [0u32; MAX_FRAMES];
    let mut least = [0u32; MAX_FRAMES];
    let mut most = [0u32; MAX_FRAMES];
    let header = read(file, &mut harvest, &mut least, &mut most)?;
    let k = header.frames;
    let lists = Lists {
        harvest: &harvest[..k],
        least: &least[..k],
        most: &most[..k],
    };
    let figures = header.figures;
    let whole = Whole {
        request: Request { figures, lists },
    };
    put_request(page, whole)
}

// Puts what the plan program prints of a word file: its listing, or the line of the refusal.
fn put_listing(page: &mut Page<'_>, file: &[u8])
    ensures { Adds (listing file.now) page.old page.new }
{
    if let Err(refusal) = put_file(page, file) {
        put_refused(page, refusal);
    }
}

// Writes what the plan program prints of a word file into the lent list, and answers how many bytes it wrote.
pub fn list(file: &[u8], out: &mut [u8]) -> usize
    ensures { ListSays file.now out.old out.new result }
{
    let mut page = Page::of(out);
    put_listing(&mut page, file);
    page.written()
}
