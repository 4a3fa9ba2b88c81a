// The words of a certificate's row by name, in their order. A range, which takes two words, has the number of its first one and another type than a word.
pub const FINGERPRINT: u64 = 0;

pub const VERSION: u64 = 1;

pub const SERIAL: u64 = 2;

pub const OUTER: u64 = 3;

pub const INNER: u64 = 4;

pub const NOT_BEFORE: u64 = 5;

pub const NOT_AFTER: u64 = 6;

pub const ISSUER: u32 = 7;

pub const SUBJECT: u32 = 9;

pub const KEY: u64 = 11;

pub const RSA_BITS: u64 = 12;

pub const ISSUER_UID: u64 = 13;

pub const SUBJECT_UID: u64 = 14;

pub const AKI: u64 = 15;

pub const AKI_KEY_ID: u64 = 16;

pub const AKI_SERIAL: u64 = 18;

pub const SKI: u64 = 19;

pub const SKI_KEY_ID: u64 = 20;

pub const EKU: u64 = 21;

pub const EKU_USAGES: u32 = 22;

pub const BC: u64 = 24;

pub const CA: u64 = 25;

pub const HAS_LENGTH: u64 = 26;

pub const LENGTH: u64 = 27;

pub const KU: u64 = 28;

pub const KU_BITS: u64 = 29;

pub const SAN: u64 = 30;

pub const SAN_NAMES: u32 = 31;

pub const NC: u64 = 33;

pub const PERMITTED: u32 = 34;

pub const EXCLUDED: u32 = 36;

pub const POLICIES: u64 = 38;

pub const AIA: u64 = 39;

pub const ANY_EXTENSIONS: u64 = 40;

// The mark of a critical part. The mark of an absent one is 0, document 01's code: where a part is asked for a word alone, it is compared with 0.
pub const CRITICAL: u64 = 3;
