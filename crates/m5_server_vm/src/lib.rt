//! The machine of servers.
#![tactic(auto)]

ghost use Rattle.std.specs.Prelude.{◌≡◌, ◌<◌, length};
ghost use Rattle.m5_machine.specs.Closure.{IsSound};
ghost use Rattle.m5_machine.specs.Run.{run, OutFits};

use m5_bytecode::code::Code;
use m5_machine::run::run_front;
use m5_region::bench::Bench;
use m5_region::out::Out;

/// Takes the front thread off and runs it up to an ask, a send, its end or a stop. A reference in a
/// cell or a thread is to an object of its kind, and a thread's code is a closure of the code,
/// before and after. It takes no memory, and returns.
pub fn run_server(code: &Code, bench: &mut Bench) -> Out
    requires sound { IsSound code.now bench.old }
    requires thread { 0 < length bench.old.threads }
    ensures run { run code.now bench.old ≡ (result, bench.new) }
    ensures sound { IsSound code.now bench.new }
    ensures fits { OutFits code.now bench.new.region.objects result }
{
    run_front(code.blocks(), bench)
}
