// What the plan program prints, for C.
ghost use Rattle.listing.specs.Says.{ListSays};

// Writes the listing of a word file into the lent list, and answers how many bytes it wrote.
#[unsafe(no_mangle)]
pub extern "C" fn energy_listing(file: &[u8], text: &mut [u8]) -> usize
    ensures { ListSays file.now text.old text.new result }
{
    listing::list(file, text)
}
