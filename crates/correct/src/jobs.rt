// What a picture needs: its frame, the output's maxval, and what both maxvals say of the codes.
ghost use Rattle.std.specs.Prelude.{◌≡◌};
ghost use Rattle.correct.specs.Jobs.{depths_in, job_of, maxval_wanted};

use crate::call::Wanted;
use desk::Unfit;
use ppm::{Frame, Scale, scale_of};
use rules::Depths;

// What maxval says of the codes, of the picture and of the output.
#[derive(Clone, Copy, Debug, PartialEq, Eq)]
pub struct Scales {
    pub raw: Scale,
    pub corrected: Scale,
}

// Stays: that a job agrees with its maxvals is a clause and no ghost field, since job_of of the specs makes one of any frame.
#[derive(Clone, Copy, Debug, PartialEq, Eq)]
pub struct Job {
    pub frame: Frame,
    pub maxval: u64,
    pub scales: Scales,
}

// Which maxval is no depth's: the picture's or the output's.
#[derive(Clone, Copy, Debug, PartialEq, Eq)]
pub enum NoDepth {
    Picture,
    Output,
}

pub fn depths_in(scales: Scales) -> Depths
    ensures { result ≡ depths_in scales }
{
    let raw = scales.raw.depth;
    let corrected = scales.corrected.depth;
    Depths { raw, corrected }
}

// The output's maxval: the picture's, where no other is wanted; one above all depths is none of theirs.
fn maxval_wanted(wanted: Wanted, picture: u64) -> u64
    ensures { result ≡ maxval_wanted wanted picture }
{
    match wanted {
        Ok(Some(n)) => n,
        Err(Unfit::TooGreat) => 65_536,
        Ok(None) | Err(Unfit::Unclear) => picture,
    }
}

// The picture's maxval is tried first.
#[tactic(auto, unfolding(crate::specs::Jobs::job_of, crate::specs::Jobs::with_raw))]
pub fn job_of(frame: Frame, wanted: Wanted) -> Result<Job, NoDepth>
    ensures { result ≡ job_of frame wanted }
{
    let Some(raw) = scale_of(frame.maxval) else {
        return Err(NoDepth::Picture);
    };
    let maxval = maxval_wanted(wanted, frame.maxval);
    let Some(corrected) = scale_of(maxval) else {
        return Err(NoDepth::Output);
    };
    let scales = Scales { raw, corrected };
    Ok(Job {
        frame,
        maxval,
        scales,
    })
}
