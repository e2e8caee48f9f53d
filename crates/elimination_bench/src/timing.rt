// The processor time of repeated calls.
ghost use Rattle.std.specs.Prelude.{◌<◌};

use elimination::Answer;
use std::time::CpuClock;

// A call of `eliminate`, to be made again and again.
#[derive(Drop)]
pub struct Call<'a> {
    pub table: &'a [u32],
    pub work: &'a mut [u32],
    pub output: &'a mut [u32],
    pub limit: u32,
}

impl Call<'_> {
    pub fn eliminate(&mut self) -> Answer {
        let limit = self.limit;
        elimination::eliminate(self.table, self.work, self.output, limit)
    }
}

// Nanoseconds of a call.
#[derive(Clone, Copy)]
pub struct Timing {
    pub best: u64,
    pub mean: u64,
}

// The processor time used so far, in microseconds; 0 if the clock fails. A year has fewer than 2^45 of them.
fn now<C: CpuClock>(clock: &C) -> u64
    ensures { result < 35184372088832 }
{
    let Ok(t) = clock.process_cpu_time() else {
        return 0;
    };
    let micros = t.as_micros();
    if micros < 35184372088832 {
        return micros as u64;
    }
    0
}

// The microseconds of so many calls.
fn batch<C: CpuClock>(clock: &C, call: &mut Call<'_>, calls: u32) -> u64
    ensures { result < 35184372088832 }
{
    let before = now(clock);
    for _ in 0..calls {
        call.eliminate();
    }
    now(clock).saturating_sub(before)
}

// Times so many calls, in batches of as many calls each: at most 16 batches, and none without a call.
pub fn measure<C: CpuClock>(clock: &C, call: &mut Call<'_>, repetitions: u32) -> Timing {
    let batches = repetitions.clamp(1, 16);
    let calls = (repetitions / batches).max(1);
    let mut best: u64 = 35184372088832;
    let mut total: u64 = 0;
    for _ in 0..batches {
        let time = batch(clock, call, calls);
        best = best.min(time);
        total += time;
    }
    Timing {
        best: 1000 * best / u64::from(calls),
        mean: 1000 * total / u64::from(calls) / u64::from(batches),
    }
}
