ghost use Rattle.std.specs.Prelude.{◌≡◌, true};
ghost use Rattle.figure.specs.Examples.{all_said};
ghost use Rattle.script.specs.Examples.{tide_said, order_said, first_said};
ghost use Rattle.script.specs.ExampleLines.{tide_lines, order_lines, first_lines, answer_lines};

// The definitions come to what stands beside each worked example line. It has no other use: its contract is the
// theorem.
fn examples_stand()
    ensures tides { all_said tide_said tide_lines ≡ true }
    ensures orders { all_said order_said order_lines ≡ true }
    ensures firsts { all_said first_said first_lines ≡ true }
    ensures answers { all_said (λ line. line) answer_lines ≡ true }
{}
