// How many digits a number has, by comparing it with powers of ten.
ghost use Rattle.std.specs.Prelude.{◌≡◌, ◌≤◌, ◌<◌, length};
ghost use Rattle.codec.specs.Decimal.{max_digits, decimal};

// How many digits n has, where these are at most ten.
fn few_digits(n: u64) -> usize
    requires { n < 10000000000 }
    ensures { result ≡ length (decimal n) }
{
    if n < 100000 {
        if n < 100 {
            if n < 10 {
                return 1;
            }
            return 2;
        }
        if n < 1000 {
            return 3;
        }
        if n < 10000 {
            return 4;
        }
        return 5;
    }
    if n < 10000000 {
        if n < 1000000 {
            return 6;
        }
        return 7;
    }
    if n < 100000000 {
        return 8;
    }
    if n < 1000000000 {
        return 9;
    }
    10
}

// How many digits n has, where these are more than ten.
fn many_digits(n: u64) -> usize
    requires { 10000000000 ≤ n }
    ensures { result ≡ length (decimal n) }
{
    if n < 1000000000000000 {
        if n < 1000000000000 {
            if n < 100000000000 {
                return 11;
            }
            return 12;
        }
        if n < 10000000000000 {
            return 13;
        }
        if n < 100000000000000 {
            return 14;
        }
        return 15;
    }
    if n < 100000000000000000 {
        if n < 10000000000000000 {
            return 16;
        }
        return 17;
    }
    if n < 1000000000000000000 {
        return 18;
    }
    if n < 10000000000000000000 {
        return 19;
    }
    20
}

// How many digits n has.
pub fn digits(n: u64) -> usize
    ensures { (result ≡ length (decimal n)) × (result ≤ max_digits) }
{
    if n < 10000000000 {
        few_digits(n)
    } else {
        many_digits(n)
    }
}
