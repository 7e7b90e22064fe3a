// The stages: that they part the buffer, that none is too long, and what each states.
ghost use Rattle.std.specs.Prelude.{◌≡◌};
ghost use Rattle.run.specs.Run.{parted};
ghost use Rattle.run_stages.specs.Reading.{LengthsAddUp, FindsLong, ReadsStages};

use answers::Answer;
use answers::by_name::refusal;
use bundle_scan::scan;
use forms::BUNDLE_BYTES;

// The most stages.
const STAGES: usize = 16;

// The number by which an answer names the first stage's file.
const FIRST_STAGE: u8 = 11;

// Whether there are 1 to 16 stages, whose lengths add up to the buffer's. What is left is counted down, so that no sum wraps.
#[tactic(auto, unfolding(run::specs::Run::parted))]
pub fn parted(buffer: &[u8], lengths: &[usize]) -> bool
    ensures { result ≡ parted lengths.now buffer.now }
{
    if lengths.is_empty() || lengths.len() > STAGES {
        return false;
    }
    let mut left = buffer.len();
    for own in lengths {
        let Some(rest) = left.checked_sub(*own) else {
            return false;
        };
        left = rest;
    }
    left == 0
}

// The file of the first stage that is too long.
pub fn long_stage(buffer: &[u8], lengths: &[usize]) -> Option<u8>
    requires { LengthsAddUp buffer.now lengths.now }
    ensures { FindsLong buffer.now lengths.now result }
{
    let i = lengths.iter().position(|own| *own > BUNDLE_BYTES)?;
    Some(FIRST_STAGE + i as u8)
}

// The K of all stages, and how many constraints they have together.
#[derive(Clone, Copy)]
pub struct Stages {
    pub k: u8,
    pub count: usize,
}

// The stages in turn, each as check reads B, the first as it reads A.
pub fn read_stages(buffer: &[u8], lengths: &[usize]) -> Result<Stages, Answer>
    requires { LengthsAddUp buffer.now lengths.now }
    ensures { ReadsStages buffer.now lengths.now result }
{
    let mut left = buffer;
    let mut k: u8 = 0;
    let mut count = 0;
    for (i, own) in lengths.iter().enumerate() {
        let file = FIRST_STAGE + i as u8;
        let (part, rest) = left.split_at(*own);
        let stage = scan(part, k, 0).map_err(|fault| refusal(fault.refusal, file, fault.place))?;
        k = stage.k;
        count += stage.body.count;
        left = rest;
    }
    Ok(Stages { k, count })
}
