// The call for hosts in C and whatever can call C, as a static library.
#![tactic(auto)]

ghost use Rattle.std.specs.Prelude.{◌≡◌, length};
ghost use Rattle.host.specs.Tells.{Promise, hosted};

// Plays a run file and writes its report, or the line that says why there is none: `host` says all. C
// reads a signed number.
#[unsafe(no_mangle)]
pub extern "C" fn queue_bench_play(file: &[u8], area: &mut [u8]) -> i64
    ensures answer { (result, area.new) ≡ hosted file.now (length area.old) }
    ensures promise { Promise file.now (length area.old) result area.new }
{
    host::call::queue_bench_play(file, area)
}
