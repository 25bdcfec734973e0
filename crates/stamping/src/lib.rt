// Stamping: the phase of an instant, written in each record of a table that a viewer lends.
#![tactic(auto)]

ghost use Rattle.std.specs.Prelude.{◌≡◌};
ghost use Rattle.tasks.specs.Tasks.{stamped_all};

use tasks::Task;

// "A viewer lends its own table of records": each is stamped. Every record and instant is allowed.
pub fn stamp_all(records: &mut [Task], instant: u32)
    ensures { records.new ≡ stamped_all instant records.old }
{
    for k in records.iter_mut() {
        *k = tasks::stamp(*k, instant);
    }
}

// The same for a table by value, as the 64 slots are: it is lent, stamped and handed back.
pub fn stamp_slots(records: [Task; 64], instant: u32) -> [Task; 64]
    ensures { result ≡ stamped_all instant records }
{
    let mut table = records;
    stamp_all(&mut table, instant);
    table
}
