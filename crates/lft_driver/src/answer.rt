//! What a command answers: true where it found nothing wrong, and the exit status is 0.

ghost use Rattle.std.specs.Prelude.{◌≢◌, ◌↔◌, IsTrue, IfOk, IfErr};
ghost use Rattle.std.specs.Io.KnownBytes.{Keeps};
ghost use Rattle.lft_driver.specs.{Explained.{ExplainBundleRefusal, IsExplainedBundle}, Judged.{Accepts, IsBundleAccepted}, Pairs.SaysSame};
ghost use Rattle.lft_driver.specs.Refusals.{BundleRefusal};
ghost use Rattle.lft_load.specs.declared.fault.Part.TheVariants as part;

use crate::alone::judge_texts_alone;
use crate::bundle::split_bundle;
use crate::explain::explain_texts;
use crate::paired::Paired;
use lft_check::Verdict;
use lft_load::{Fault, Part};
use std::alloc::Global;
use std::io::Write;
use std::thread::Threads;

/// Whether a verdict is that the trace is accepted.
pub fn is_accepted(verdict: Verdict) -> bool
    ensures { IsTrue result ↔ Accepts verdict }
{
    matches!(verdict, Verdict::Accepted { .. })
}

/// Whether two traces are said to be accepted and to have the same runs.
pub fn is_same(paired: Paired) -> bool
    ensures { IsTrue result ↔ SaysSame paired }
{
    matches!(paired, Paired::Same { .. })
}

/// Whether the trace of a bundle is accepted, whose verdict's line is written. A text that is no
/// bundle is refused as `bundle 1 BadBundle`.
pub fn bundle_answer<W: Write>(alloc: Global, text: &[u8], out: &mut W) -> Result<bool, Fault>
    ensures accepted { IfOk result (IsBundleAccepted text.now (W.contents out.old) (W.contents out.new)) }
    ensures refused { IfErr result (BundleRefusal text.now (W.contents out.old) (W.contents out.new)) }
    ensures kept { IfErr result (λ f. f.part ≢ part.Write → Keeps (W.contents out.old) (W.contents out.new)) }
{
    let Some(bundle) = split_bundle(text) else {
        return Err(Fault::plain(Part::Bundle, 1, "BadBundle"));
    };
    match judge_texts_alone(alloc, bundle.program, bundle.externals, bundle.trace, out) {
        Ok(verdict) => Ok(is_accepted(verdict)),
        Err(fault) => Err(fault),
    }
}

/// Whether the trace of a bundle is accepted, whose verdict's line is written, with what explains
/// it. A text that is no bundle is refused as `bundle 1 BadBundle`.
pub fn explain_bundle_answer<W: Write, R: Threads + Sync>(
    rt: &R,
    alloc: Global,
    text: &[u8],
    all: bool,
    out: &mut W,
) -> Result<bool, Fault>
    ensures accepted { IfOk result (IsExplainedBundle all text.now (W.contents out.old) (W.contents out.new)) }
    ensures refused { IfErr result (ExplainBundleRefusal all text.now (W.contents out.old) (W.contents out.new)) }
    ensures kept { IfErr result (λ f. f.part ≢ part.Write → f.part ≢ part.Memory → Keeps (W.contents out.old) (W.contents out.new)) }
{
    let Some(bundle) = split_bundle(text) else {
        return Err(Fault::plain(Part::Bundle, 1, "BadBundle"));
    };
    match explain_texts(
        rt,
        alloc,
        bundle.program,
        bundle.externals,
        bundle.trace,
        1,
        all,
        out,
    ) {
        Ok(verdict) => Ok(is_accepted(verdict)),
        Err(fault) => Err(fault),
    }
}
