//! The reserved words (IEEE Std 1076-2008, clause 15.10), looked up by a table without collisions.
//!
//! The three tables and the four factors in `bucket_of` were found by `bench/reserved.py`, which prints them again.

ghost use Rattle.std.specs.Prelude.{◌≡◌, ◌<◌, ◌↔◌, IsTrue, length, slice_index, slice_index_or, []};
ghost use Rattle.std.specs.Char.{to_ascii_lowercase};
ghost use Rattle.vhdl_spec.specs.Words.{is_reserved, lower_case, reserved_words};
ghost use Rattle.vhdl_lex.specs.Buckets.{IsNumberOf, bucket_of};

/// The letters of all reserved words, in order.
static LETTERS: [u8; 642] =
    *b"absaccessafteraliasallandarchitecturearrayassertassumeassume_guaranteeattributebeginblockbodybufferbuscasecomponentconfigurationconstantcontextcoverdefaultdisconnectdowntoelseelsifendentityexitfairnessfileforforcefunctiongenerategenericgroupguardedifimpureininertialinoutislabellibrarylinkageliteralloopmapmodnandnewnextnornotnullofonopenorothersoutpackageparameterportpostponedprocedureprocesspropertyprotectedpurerangerecordregisterrejectreleaseremreportrestrictrestrict_guaranteereturnrolrorselectsequenceseveritysharedsignalslasllsrasrlstrongsubtypethentotransporttypeunaffectedunitsuntilusevariablevmodevpropvunitwaitwhenwhilewithxnorxor";

/// Where the letters of each word begin, and where those of the last end.
static STARTS: [u16; 116] = [
    0, 3, 9, 14, 19, 22, 25, 37, 42, 48, 54, 70, 79, 84, 89, 93, 99, 102, 106, 115, 128, 136, 143,
    148, 155, 165, 171, 175, 180, 183, 189, 193, 201, 205, 208, 213, 221, 229, 236, 241, 248, 250,
    256, 258, 266, 271, 273, 278, 285, 292, 299, 303, 306, 309, 313, 316, 320, 323, 326, 330, 332,
    334, 338, 340, 346, 349, 356, 365, 369, 378, 387, 394, 402, 411, 415, 420, 426, 434, 440, 447,
    450, 456, 464, 482, 488, 491, 494, 500, 508, 516, 522, 528, 531, 534, 537, 540, 546, 553, 557,
    559, 568, 572, 582, 587, 592, 595, 603, 608, 613, 618, 622, 626, 631, 635, 639, 642,
];

/// At the offset of each reserved word its number, counted from 1, and 0 elsewhere.
static NUMBERS: [u8; 1024] = [
    0, 0, 0, 99, 0, 0, 0, 0, 0, 0, 0, 0, 0, 34, 0, 0, 0, 23, 0, 0, 0, 0, 0, 0, 0, 24, 0, 0, 0, 0,
    0, 0, 0, 0, 0, 115, 0, 0, 0, 0, 0, 0, 0, 100, 0, 0, 0, 0, 0, 0, 0, 0, 0, 55, 0, 0, 0, 0, 0, 0,
    0, 0, 68, 0, 0, 0, 0, 0, 52, 0, 0, 0, 0, 92, 0, 0, 0, 0, 0, 0, 0, 0, 0, 0, 0, 49, 0, 0, 0, 0,
    0, 0, 0, 0, 0, 0, 0, 0, 0, 94, 0, 0, 0, 61, 0, 0, 0, 0, 0, 114, 0, 0, 0, 0, 0, 0, 0, 0, 102, 0,
    0, 0, 0, 0, 0, 0, 109, 0, 75, 0, 108, 0, 2, 0, 46, 0, 0, 0, 0, 0, 0, 0, 0, 0, 0, 0, 0, 0, 0, 0,
    0, 0, 0, 113, 0, 0, 0, 0, 0, 0, 38, 0, 0, 22, 0, 0, 0, 0, 0, 0, 0, 0, 0, 0, 0, 0, 105, 0, 0, 0,
    0, 0, 0, 0, 0, 0, 0, 0, 7, 0, 0, 0, 0, 0, 0, 0, 0, 0, 0, 0, 0, 0, 0, 76, 0, 0, 0, 0, 0, 0, 0,
    0, 11, 78, 0, 0, 0, 0, 0, 0, 0, 0, 0, 0, 0, 0, 0, 0, 18, 0, 0, 0, 0, 67, 0, 0, 0, 21, 0, 0, 0,
    0, 0, 0, 0, 0, 0, 0, 16, 0, 0, 0, 0, 50, 0, 0, 0, 58, 0, 0, 0, 0, 0, 0, 0, 0, 0, 0, 0, 0, 0, 0,
    0, 0, 0, 98, 0, 0, 0, 0, 0, 0, 0, 0, 0, 0, 0, 0, 30, 0, 0, 0, 0, 0, 31, 0, 0, 0, 0, 0, 0, 0, 0,
    0, 0, 8, 9, 0, 0, 0, 0, 0, 0, 0, 0, 0, 110, 0, 0, 0, 0, 0, 0, 0, 0, 0, 0, 0, 87, 0, 0, 0, 26,
    0, 0, 0, 0, 0, 0, 0, 0, 0, 0, 0, 0, 0, 0, 0, 0, 85, 0, 0, 0, 0, 0, 0, 0, 0, 0, 29, 0, 0, 0, 0,
    0, 0, 0, 0, 0, 86, 69, 0, 33, 0, 0, 0, 0, 0, 0, 0, 0, 0, 32, 60, 0, 0, 0, 0, 0, 0, 0, 0, 42, 0,
    0, 0, 0, 0, 65, 0, 0, 0, 0, 0, 0, 0, 0, 0, 0, 1, 0, 0, 0, 0, 0, 77, 0, 97, 0, 0, 0, 0, 0, 0, 0,
    0, 0, 0, 0, 51, 53, 0, 0, 0, 0, 0, 0, 43, 0, 0, 0, 0, 0, 0, 54, 0, 0, 0, 0, 0, 0, 0, 0, 0, 0,
    0, 0, 0, 27, 0, 19, 3, 59, 0, 0, 0, 0, 0, 0, 0, 0, 0, 35, 0, 25, 63, 0, 0, 0, 0, 0, 0, 0, 0, 0,
    0, 0, 0, 0, 0, 0, 0, 0, 73, 0, 0, 10, 0, 0, 0, 0, 0, 0, 0, 0, 0, 0, 0, 0, 0, 0, 91, 0, 0, 0, 0,
    0, 0, 0, 0, 0, 0, 0, 0, 74, 0, 0, 0, 0, 0, 0, 14, 0, 0, 0, 0, 0, 0, 0, 0, 0, 0, 0, 0, 0, 66, 0,
    0, 0, 89, 0, 0, 0, 0, 0, 0, 0, 71, 0, 44, 0, 40, 36, 0, 0, 0, 0, 0, 0, 0, 0, 0, 0, 0, 0, 0, 0,
    0, 0, 0, 0, 0, 0, 106, 0, 0, 0, 0, 82, 0, 0, 0, 0, 0, 0, 0, 0, 0, 0, 0, 0, 0, 0, 0, 47, 0, 0,
    0, 0, 0, 0, 0, 0, 0, 0, 0, 0, 0, 0, 0, 111, 0, 0, 0, 0, 0, 0, 0, 0, 0, 0, 0, 0, 0, 101, 0, 0,
    0, 0, 0, 0, 0, 0, 0, 0, 0, 0, 0, 0, 0, 0, 0, 0, 0, 0, 0, 0, 0, 0, 0, 0, 0, 0, 0, 0, 0, 12, 70,
    0, 0, 0, 0, 0, 0, 0, 0, 0, 13, 0, 0, 0, 0, 0, 0, 0, 0, 0, 0, 0, 0, 0, 0, 0, 104, 48, 0, 0, 0,
    0, 0, 0, 0, 0, 0, 0, 0, 28, 0, 0, 0, 0, 0, 0, 0, 0, 0, 0, 41, 64, 0, 0, 0, 0, 0, 62, 0, 0, 0,
    0, 0, 0, 0, 0, 0, 0, 0, 0, 0, 0, 0, 0, 0, 0, 0, 0, 0, 0, 0, 0, 79, 0, 0, 0, 0, 0, 0, 0, 0, 4,
    0, 0, 0, 20, 107, 0, 0, 0, 0, 0, 0, 0, 0, 0, 0, 0, 0, 0, 17, 0, 0, 0, 0, 0, 0, 0, 0, 0, 0, 0,
    0, 0, 0, 0, 0, 0, 0, 0, 0, 0, 0, 0, 0, 0, 0, 0, 0, 0, 0, 0, 37, 0, 0, 0, 0, 0, 0, 0, 0, 0, 0,
    0, 80, 0, 0, 0, 0, 0, 0, 0, 0, 0, 0, 0, 0, 0, 0, 0, 0, 0, 0, 96, 0, 0, 90, 0, 0, 0, 0, 0, 0, 0,
    0, 112, 0, 45, 0, 0, 0, 0, 0, 0, 0, 0, 0, 0, 0, 0, 0, 0, 0, 0, 0, 0, 0, 0, 0, 0, 0, 0, 0, 0, 0,
    56, 0, 0, 0, 0, 0, 0, 83, 0, 0, 0, 0, 0, 0, 0, 0, 0, 0, 0, 0, 0, 0, 0, 0, 0, 0, 0, 0, 0, 0, 0,
    0, 0, 0, 0, 0, 0, 0, 0, 0, 0, 6, 0, 0, 0, 0, 0, 0, 0, 0, 0, 57, 0, 0, 0, 0, 88, 81, 0, 5, 0, 0,
    0, 84, 0, 0, 0, 0, 0, 0, 39, 0, 0, 0, 0, 0, 0, 0, 0, 0, 0, 93, 0, 0, 0, 0, 15, 0, 0, 0, 0, 0,
    0, 0, 0, 0, 0, 0, 0, 0, 0, 0, 0, 0, 0, 0, 0, 95, 0, 0, 0, 0, 0, 0, 0, 0, 0, 0, 0, 72, 0, 0, 0,
    0, 0, 0, 0, 0, 103, 0, 0, 0, 0, 0, 0, 0, 0, 0, 0, 0, 0, 0,
];

/// Each byte, a letter in lower case.
static LOWER: [u8; 256] = [
    0, 1, 2, 3, 4, 5, 6, 7, 8, 9, 10, 11, 12, 13, 14, 15, 16, 17, 18, 19, 20, 21, 22, 23, 24, 25,
    26, 27, 28, 29, 30, 31, 32, 33, 34, 35, 36, 37, 38, 39, 40, 41, 42, 43, 44, 45, 46, 47, 48, 49,
    50, 51, 52, 53, 54, 55, 56, 57, 58, 59, 60, 61, 62, 63, 64, 97, 98, 99, 100, 101, 102, 103,
    104, 105, 106, 107, 108, 109, 110, 111, 112, 113, 114, 115, 116, 117, 118, 119, 120, 121, 122,
    91, 92, 93, 94, 95, 96, 97, 98, 99, 100, 101, 102, 103, 104, 105, 106, 107, 108, 109, 110, 111,
    112, 113, 114, 115, 116, 117, 118, 119, 120, 121, 122, 123, 124, 125, 126, 127, 128, 129, 130,
    131, 132, 133, 134, 135, 136, 137, 138, 139, 140, 141, 142, 143, 144, 145, 146, 147, 148, 149,
    150, 151, 152, 153, 154, 155, 156, 157, 158, 159, 160, 161, 162, 163, 164, 165, 166, 167, 168,
    169, 170, 171, 172, 173, 174, 175, 176, 177, 178, 179, 180, 181, 182, 183, 184, 185, 186, 187,
    188, 189, 190, 191, 192, 193, 194, 195, 196, 197, 198, 199, 200, 201, 202, 203, 204, 205, 206,
    207, 208, 209, 210, 211, 212, 213, 214, 215, 216, 217, 218, 219, 220, 221, 222, 223, 224, 225,
    226, 227, 228, 229, 230, 231, 232, 233, 234, 235, 236, 237, 238, 239, 240, 241, 242, 243, 244,
    245, 246, 247, 248, 249, 250, 251, 252, 253, 254, 255,
];

/// The offset of a word in the table, by its length and three of its letters without their case.
#[inline(always)]
#[tactic(auto, unfolding(crate::specs::Buckets::bucket_of))]
fn bucket_of(word: &[u8]) -> usize
    requires { 0 < length word.now }
    ensures { result ≡ bucket_of word.now }
{
    let length = word.len();
    let first = (word[0] | 32) as usize;
    let middle = (word[length / 2] | 32) as usize;
    let last = (word[length - 1] | 32) as usize;
    (115 * first + 175 * middle + 174 * last + 74 * (length % 64)) % 1024
}

/// Where the letters of a word begin, by its number counted from 0.
#[inline(always)]
fn start_of(number: usize) -> usize
    requires { number < 116 }
    ensures { result ≡ slice_index STARTS number }
{
    STARTS[number] as usize
}

/// A reserved word, by its number counted from 0.
fn reserved_word(number: usize) -> &'static [u8]
    requires { number < 115 }
    ensures { result.now ≡ slice_index_or reserved_words number [] }
{
    let start = start_of(number);
    let end = start_of(number + 1);
    &LETTERS[start..end]
}

/// The number of the one word that may be at an offset, counted from 1, or 0 for none.
#[inline(always)]
fn number_at(offset: usize) -> usize
    requires { offset < 1024 }
    ensures { result ≡ slice_index NUMBERS offset }
{
    NUMBERS[offset] as usize
}

/// A byte, a letter in lower case.
#[inline(always)]
fn to_lower_case(byte: u8) -> u8
    ensures { result ≡ to_ascii_lowercase byte }
{
    LOWER[byte as usize]
}

/// Whether the bytes, in lower case, are these.
#[inline(always)]
fn is_lowered(bytes: &[u8], letters: &[u8]) -> bool
    ensures { IsTrue result ↔ (lower_case bytes.now ≡ letters.now) }
{
    if bytes.len() != letters.len() {
        return false;
    }
    for i in 0..bytes.len() {
        if to_lower_case(bytes[i]) != letters[i] {
            return false;
        }
    }
    true
}

/// The number of a reserved word among all in the order of the alphabet, counted from 1, or 0 for another word.
pub fn reserved_number(word: &[u8]) -> usize
    ensures { IsNumberOf word.now result }
{
    if word.is_empty() {
        return 0;
    }
    let number = number_at(bucket_of(word));
    if number != 0 && is_lowered(word, reserved_word(number - 1)) {
        number
    } else {
        0
    }
}

/// Whether a word is reserved, in letters of any case.
pub fn is_reserved(word: &[u8]) -> bool
    ensures { result ≡ is_reserved word.now }
{
    reserved_number(word) != 0
}
