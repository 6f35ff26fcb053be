ghost use Rattle.std.specs.Prelude.{◌≡◌, Bool};
ghost use Rattle.orders.specs.Order.{TotalOrder};

// Elements in a total order, so that some element of any heap of them is least.
pub trait Ranked {
    ghost le: { Self → Self → Bool };

    // Whether this element is the other one or stands before it. Each kind answers by itself, since only
    // there is it known that its derived order is the one stated.
    fn at_most(&self, other: &Self) -> bool
        ensures { result ≡ le self.now other.now };

    ghost total: { TotalOrder le };
}
