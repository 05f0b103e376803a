// Command lines: CSI1, CSI2 and the writing of lines.
ghost use Rattle.command.specs.Csi1.{Csi1Answered};
ghost use Rattle.command.specs.Csi2.{Csi2Answered};
ghost use Rattle.command_writing.specs.CsiWrite.{CsiWriteAnswered};

use answers::Answer;
use command::csi2::SpecificationAnswer;

#[unsafe(no_mangle)]
pub extern "C" fn abz_csi1(line: &[u8], condensed: &mut [u8]) -> Answer
    ensures { Csi1Answered line.now condensed.old result condensed.new }
{
    command::csi1::condensing_answer(command::csi1::csi1(line, condensed))
}

#[unsafe(no_mangle)]
pub extern "C" fn abz_csi2(
    line: &[u8],
    side: usize,
    k: usize,
    switches: &mut [u8],
) -> SpecificationAnswer
    ensures { Csi2Answered line.now side k switches.old result switches.new }
{
    command::csi2::csi2(line, side, k, switches).into()
}

#[unsafe(no_mangle)]
pub extern "C" fn abz_csi_write(
    outputs: usize,
    inputs: usize,
    records: &[u8],
    line: &mut [u8],
) -> Answer
    ensures { CsiWriteAnswered outputs inputs records.now line.old result line.new }
{
    command_writing::writing_answer(command_writing::csi_write(outputs, inputs, records, line))
}
