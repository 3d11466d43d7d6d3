// A law about command lines with options. The function does nothing: its contract is the law.
ghost use Rattle.cli_requests.specs.Examples.{AreExamples, AreValuesRead};

/// Command lines with options are right, and what is found in them is what they say: each command with all options that go together, whatever the values
/// are, and some with options before, among and after the operands. It has `--wait` only where that is the only option.
pub fn options_are_read()
    ensures values { AreValuesRead }
    ensures examples { AreExamples }
{}
