// The table of rules: which rule is broken where.
#![tactic(auto)]

ghost use Rattle.std.specs.Prelude.{◌≡◌};
ghost use Rattle.laws.specs.Lists.{any, rows};
ghost use Rattle.faults.specs.Report.{certificate};
ghost use Rattle.fields.specs.KeyLevel.{check_cert_key_level};
ghost use Rattle.rules.specs.Rules.{least_bits, dsa_allowed, purpose_holds, constraints_hold, host_holds, holds_at, holds_between, is_root, broken_at, broken_between, asks_nothing, chain_in, lists_in, broken_by};

use certs::row::NC;
use faults::Spot;
use model::chain::{CERTS, CertRow, row_of};
use policies::Policy;
use purpose::Serving;
use table::{CertPos, Lent, RuleNo};

// The rule that is asked of the whole chain.
const SYMANTEC: u32 = 20;

// The rule of name constraints.
const CONSTRAINTS: u32 = 14;

// The least bits of an RSA key.
const LEAST_BITS: u64 = 1024;

// What is judged: by whose rules, the bundle of the chain, and that of the policy's lists.
#[derive(Clone, Copy)]
pub struct Case<'a> {
    pub policy: Policy,
    pub chain: Lent<'a, 'a>,
    pub lists: Lent<'a, 'a>,
}

// Whether a policy lets a key be one of DSA.
fn dsa_allowed(policy: Policy) -> bool
    ensures { result ≡ dsa_allowed policy }
{
    matches!(policy, Policy::OpenSsl)
}

impl Case<'_> {
    // ---- rules that the policies ask in two ways. A match and no trait of policies: the definitions go by the case too (`purpose_holds`, `constraints_hold`, `host_holds`), and nothing else differs.

    // Rule 6.
    fn key_holds(self, c: CertRow) -> bool
        ensures { result ≡ check_cert_key_level least_bits (dsa_allowed self.entry.policy) ((chain_in self.entry).cert c.0) }
    {
        let dsa = dsa_allowed(self.policy);
        fields::key_level::check_cert_key_level(self.chain, LEAST_BITS, dsa, c)
    }

    // Rule 8.
    fn purpose_holds(self, leaf: bool, c: CertRow) -> bool
        ensures { result ≡ purpose_holds self.entry.policy leaf ((chain_in self.entry).cert c.0) }
    {
        match self.policy {
            Policy::OpenSsl => purpose::check_purpose(self.chain, leaf, c),
            Policy::Chrome => {
                purpose::extended_key_usage_valid(self.chain, Serving::ServerOrAny, c)
            }
        }
    }

    // Rule 14: d keeps the constraints of c.
    fn constraints_hold(self, leaf: bool, c: CertRow, d: CertRow) -> bool
        ensures { result ≡ constraints_hold self.entry.policy leaf ((chain_in self.entry).cert c.0) ((chain_in self.entry).cert d.0) }
    {
        match self.policy {
            Policy::OpenSsl => constrained_o::check_name_constraints(self.chain, c, d, leaf),
            Policy::Chrome => constrained_c::rule14::check_name_constraints(self.chain, c, d),
        }
    }

    // Rule 15.
    fn host_holds(self, leaf: CertRow) -> bool
        ensures { result ≡ host_holds self.entry.policy (lists_in self.entry) (chain_in self.entry).task ((chain_in self.entry).cert leaf.0) }
    {
        match self.policy {
            Policy::OpenSsl => hosts::host_named(self.chain, leaf),
            Policy::Chrome => hosts_c::host_named(self.chain, self.lists, leaf),
        }
    }

    // ---- the rules by their numbers

    // Whether a certificate is the last of the chain.
    fn is_root(self, i: CertPos) -> bool
        ensures { result ≡ is_root (chain_in self.entry) i.0 }
    {
        i.0 as u64 + 1 == table::count(self.chain.words, CERTS)
    }

    // The rules that are asked of one certificate: c is its row. A match on the number, a line a rule, as document 01 and the definition have it (`holds_at`).
    // Inlined into the chain of `any_breaks`: asked by a call for each certificate, sixteen short ones took a quarter longer.
    #[inline(always)]
    fn holds_at(self, rule: RuleNo, i: CertPos, root: bool, c: CertRow) -> bool
        ensures { result ≡ holds_at self.entry.policy (lists_in self.entry) (chain_in self.entry).task rule.0 i.0 root ((chain_in self.entry).cert c.0) }
    {
        let leaf = i.0 == 0;
        let chain = self.chain;
        let lists = self.lists;
        match rule.0 {
            2 => fields::validity::check_cert_time(chain, c),
            3 => fields::signatures::outer_inner_sig_match(chain, c),
            4 => fields::uids::issuer_subject_uid_version(chain, c),
            5 => fields::key_usage::key_usage_non_empty(chain, c),
            6 => self.key_holds(c),
            7 => key_ids::check_auth_subject_key_id(chain, root, leaf, c),
            8 => self.purpose_holds(leaf, c),
            9 => parts::ca::check_ca(chain, c),
            10 => parts::path_length::path_length_holds(chain, i, c),
            11 => parts::san::check_san(chain, c),
            12 => parts::empty_subject::empty_subject_implies_critical_san(chain, c),
            15 => self.host_holds(c),
            16 => constrained_c::rule16::valid_dns_name_constraints(chain, c),
            18 => roots::fingerprints::not_in_crl(chain, lists, c),
            19 => roots::fingerprints::valid_root_fingerprint(chain, lists, c),
            _ => true,
        }
    }

    // The rules that are asked of two: c is the row of the pair's first certificate, d that of its second, j.
    fn holds_between(self, rule: RuleNo, j: CertPos, c: CertRow, d: CertRow) -> bool
        ensures { result ≡ holds_between self.entry.policy (lists_in self.entry) rule.0 j.0 ((chain_in self.entry).cert c.0) ((chain_in self.entry).cert d.0) }
    {
        let leaf = j.0 == 0;
        match rule.0 {
            13 => issuing::likely_issued(self.chain, d, c),
            14 => self.constraints_hold(leaf, c, d),
            17 => roots::duration::duration_holds(self.chain, self.lists, c, d),
            _ => true,
        }
    }

    // Whether a rule is broken at a certificate. Inlined, as `holds_at`.
    #[inline(always)]
    fn breaks_at(self, rule: RuleNo, i: CertPos) -> bool
        ensures { result ≡ broken_at self.entry.policy (chain_in self.entry) (lists_in self.entry) rule.0 i.0 }
    {
        if rule.0 == SYMANTEC {
            return !roots::symantec::symantec_holds(self.chain, self.lists);
        }
        let root = self.is_root(i);
        !self.holds_at(rule, i, root, row_of(i))
    }

    // Whether a rule is broken at some certificate from one up to, and without, another.
    pub fn any_breaks(self, rule: RuleNo, from: CertPos, to: u32) -> bool
        ensures { result ≡ any (broken_by self.entry rule.0) (rows certificate from.0 to) }
    {
        (from.0..to).any(|i| self.breaks_at(rule, CertPos(i)))
    }

    // Whether a rule is broken between two.
    fn breaks_between(self, rule: RuleNo, i: CertPos, j: CertPos) -> bool
        ensures { result ≡ broken_between self.entry.policy (chain_in self.entry) (lists_in self.entry) rule.0 i.0 j.0 }
    {
        !self.holds_between(rule, j, row_of(i), row_of(j))
    }

    // Whether a rule is broken at a spot.
    pub fn breaks(self, rule: RuleNo, spot: Spot) -> bool
        ensures { result ≡ broken_by self.entry rule.0 spot }
    {
        match spot {
            Spot::Nothing => false,
            Spot::Certificate(i) => self.breaks_at(rule, i),
            Spot::Pair(i, j) => self.breaks_between(rule, i, j),
        }
    }

    // Whether no pair of a certificate with one below it can break a rule, since it has no constraints.
    pub fn asks_nothing(self, rule: RuleNo, i: CertPos) -> bool
        ensures { result ≡ asks_nothing (chain_in self.entry) rule.0 i.0 }
    {
        let unconstrained = certs::cert_word(self.chain.words, row_of(i), NC) == 0;
        (rule.0 == CONSTRAINTS) & unconstrained
    }
}
