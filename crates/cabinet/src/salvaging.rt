// The call for C that salvages a job with bad outcomes.
ghost use Rattle.rules.specs.Fault.{with_record};
ghost use Rattle.salvage.specs.Salvage.{Salvaging};

#[repr(C)]
#[derive(Clone, Copy, Debug, PartialEq, Eq)]
pub struct SalvagedFigures {
    pub refusal: u32,
    pub job_length: u32,
    pub pairs_length: u32,
    pub record: u32,
}

// Salvages a job into a buffer, and lists the removed pairs in another.
pub fn cabinet_salvage(job: &[u8], salvaged: &mut [u8], pairs: &mut [u8]) -> SalvagedFigures
    ensures { Salvaging job.now salvaged.old pairs.old
        (with_record result.refusal result.«record») result.job_length result.pairs_length salvaged.new pairs.new }
{
    // No From: lengths of any size have no 32 bits, and those of a job that was salvaged have.
    match salvage::tool::salvage(job, salvaged, pairs) {
        Ok(lengths) => SalvagedFigures {
            refusal: 0,
            job_length: lengths.job as u32,
            pairs_length: lengths.pairs as u32,
            record: 0,
        },
        Err(why) => SalvagedFigures {
            refusal: why.number(),
            job_length: 0,
            pairs_length: 0,
            record: why.record(),
        },
    }
}
