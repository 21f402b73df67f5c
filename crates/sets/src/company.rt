// How large a company of boxes may be, and how many of them may fall.
ghost use Rattle.std.specs.Prelude.{◌≡◌};
ghost use Rattle.sets.specs.Companies.{is_company_size, is_company};

const LEAST_COMPANY: u32 = 2;

/// The most boxes that a company has. A set has room for as many.
pub const MOST_COMPANY: u32 = 32;

/// Whether a company may have n boxes: 2 to 32.
pub fn is_company_size(n: u32) -> bool
    ensures { result ≡ is_company_size n }
{
    (LEAST_COMPANY..=MOST_COMPANY).contains(&n)
}

/// Whether a company may have n boxes of which t may fall: n from 2 to 32, and t from 1 to n − 1.
pub fn is_company(n: u32, t: u32) -> bool
    ensures { result ≡ is_company n t }
{
    is_company_size(n) && (1..n).contains(&t)
}
