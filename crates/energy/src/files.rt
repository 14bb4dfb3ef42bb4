// Reading and writing a word file, for C.
ghost use Rattle.std.specs.Prelude.{length};
ghost use Rattle.model.specs.Request.{bounded_request};
ghost use Rattle.wordfile.specs.Says.{ReadSays, WriteSays};
ghost use Rattle.energy.specs.Through.{Through};
ghost use Rattle.answers.specs.Flat.{read_flat, write_flat};

use answers::{EnergyReadAnswer, EnergyWriteAnswer};
use model::{Figures, Lists, Request};
use wordfile::{read, write};

// Reads a file: its harvests, leasts and mosts into the lent lists, what comes before them into the answer.
#[unsafe(no_mangle)]
pub extern "C" fn energy_read(
    file: &[u8],
    harvest: &mut [u32],
    least: &mut [u32],
    most: &mut [u32],
) -> EnergyReadAnswer
    ensures { Through
        (ReadSays file.now harvest.old least.old most.old
        harvest.new least.new most.new)
        read_flat result }
{
    read(file, harvest, least, most).into()
}

// Writes the file of a request to the front of the lent list.
#[unsafe(no_mangle)]
pub extern "C" fn energy_write(
    figures: Figures,
    harvest: &[u32],
    least: &[u32],
    most: &[u32],
    file: &mut [u8],
) -> EnergyWriteAnswer
    ensures { Through
        (WriteSays (bounded_request figures harvest.now least.now most.now)
        (length least.now) (length most.now) file.old file.new)
        write_flat result }
{
    let lists = Lists {
        harvest,
        least,
        most,
    };
    write(Request { figures, lists }, file).into()
}
