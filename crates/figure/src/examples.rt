ghost use Rattle.std.specs.Prelude.{◌≡◌, true};
ghost use Rattle.figure.specs.Examples.{all_said, tide_said, order_said, tides, orders};

// The definitions come to what stands beside each worked example. It has no other use: its contract is the theorem.
fn examples_stand()
    ensures tides_read { all_said tide_said tides ≡ true }
    ensures orders_read { all_said order_said orders ≡ true }
{}
