ghost use Rattle.std.specs.Prelude.{◌<◌, length};
ghost use Rattle.cstn_net.specs.Limits.{most_load};
ghost use Rattle.cstn_log.specs.Entries.{the_entries};
ghost use Rattle.cstn_tight.specs.Greatest.{IsFirstGreatest};

use cstn_log::Log;

/// The place of the first entry with the greatest least value.
pub(crate) fn first_greatest(log: &Log) -> u32
    requires some { 0 < length log.now.entries }
    ensures first { IsFirstGreatest (the_entries log.now.entries) (length log.now.entries) result }
    ensures inside { result < length log.now.entries }
    ensures few { result < most_load }
{
    let mut place = 0;
    for k in 1..log.len() {
        if log.entry(place).bound.least < log.entry(k).bound.least {
            place = k;
        }
    }
    place
}
