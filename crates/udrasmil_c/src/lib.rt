// The C boundary (include/udrasmil.h) as a static library: each export calls the function of its name in the crate udrasmil, and says the same. C lends slices, and no Lent.
#![tactic(auto)]

ghost use Rattle.udrasmil.specs.Boundary.{OpenSslAnswered, ChromeAnswered};

#[unsafe(no_mangle)]
pub extern "C" fn udrasmil_judge_openssl(
    words: &[u64],
    bytes: &[u8],
    report: &mut [u32],
    answer: &mut [u64; 8],
)
    ensures { OpenSslAnswered words.now bytes.now report.old report.new answer.new }
{
    udrasmil::udrasmil_judge_openssl(words, bytes, report, answer);
}

#[unsafe(no_mangle)]
pub extern "C" fn udrasmil_judge_chrome(
    words: &[u64],
    bytes: &[u8],
    pwords: &[u64],
    pbytes: &[u8],
    report: &mut [u32],
    answer: &mut [u64; 8],
)
    ensures { ChromeAnswered words.now bytes.now pwords.now pbytes.now report.old report.new answer.new }
{
    udrasmil::udrasmil_judge_chrome(words, bytes, pwords, pbytes, report, answer);
}
