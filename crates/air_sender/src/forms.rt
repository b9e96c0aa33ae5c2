//! The form in which a deck's buckets are aired, and how long one of them is at most.

ghost use Rattle.std.specs.Prelude.{◌≡◌, ◌⊎◌, ◌+◌, ◌*◌, length};
ghost use Rattle.air_model.specs.Aired.{air_of};
ghost use Rattle.air_model.specs.Buckets.{entry_len};
ghost use Rattle.bucket_codec.specs.declared.offsets.TheConstants.{HEAD_BYTES};
ghost use Rattle.air_sender.specs.BoardBuckets.{form_of};

use air_base::Form;
use bucket_codec::entry_size;
use bucket_codec::offsets::HEAD_BYTES;
use chunk_program::Planned;

/// The form in which the deck's buckets are aired.
pub fn own_form(planned: &Planned) -> Form
    ensures form { result ≡ form_of (air_of planned.now) }
    ensures version { (result.version ≡ 1) ⊎ (result.version ≡ 2) }
{
    let set = planned.deck().settings();
    Form {
        policy: set.policy,
        version: set.version,
    }
}

/// The length in bytes of the deck's longest bucket: a head, and an entry for each item.
pub fn bucket_room(planned: &Planned) -> usize
    ensures { result ≡ HEAD_BYTES + entry_len planned.now.settings.version * length planned.now.items }
{
    HEAD_BYTES + entry_size(own_form(planned).version) * planned.deck().items() as usize
}
