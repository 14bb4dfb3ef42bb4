// What there is in all.
ghost use Rattle.std.specs.Prelude.{◌≡◌, ◌<◌, ◌^◌, length};
ghost use Rattle.model.specs.Answer.{asked};
ghost use Rattle.model.specs.Request.{most_energy, total};

use model::Request;

// Start charge and all harvests, where they fit 32 bits.
pub fn most_energy(request: Request) -> u32
    requires { (length request.lists.harvest.now < 2 ^ 31) × (most_energy (asked request) < 2 ^ 32) }
    ensures { result ≡ most_energy (asked request.entry) }
{
    (request.figures.start as u64 + sum(request.lists.harvest)) as u32
}

// All entries of a list added up.
fn sum(list: &[u32]) -> u64
    requires { length list.now < 2 ^ 31 }
    ensures is { result ≡ total list.now }
    ensures below { result < 2 ^ 63 }
{
    list.iter().map(|entry| *entry as u64).sum()
}
