// The forms of a record's texts.
ghost use Rattle.std.specs.Prelude.{◌≡◌};
ghost use Rattle.syntax.specs.Forms.{all};
ghost use Rattle.syntax.specs.RecordLayout.{is_plain, is_action_name, is_resource_arn, is_key_name};

use held::limits;
use syntax::forms;

fn is_plain_char(c: u32) -> bool
    ensures { result ≡ is_plain c }
{
    forms::is_vendor_char(c) || c == 58
}

fn is_plain(cs: &[u32]) -> bool
    ensures { result ≡ all is_plain cs.now }
{
    cs.iter().all(|c| is_plain_char(*c))
}

pub fn is_action_name(cs: &[u32]) -> bool
    ensures { result ≡ is_action_name cs.now }
{
    forms::is_vendor(cs) && is_plain(cs) && cs.len() <= limits::ENTRY
}

pub fn is_resource_arn(cs: &[u32]) -> bool
    ensures { result ≡ is_resource_arn cs.now }
{
    cs.len() <= limits::ENTRY && (forms::is_only(cs, 42) || forms::is_arn(cs))
}

pub fn is_key_name(cs: &[u32]) -> bool
    ensures { result ≡ is_key_name cs.now }
{
    forms::is_key(cs) && cs.len() <= limits::KEY
}
