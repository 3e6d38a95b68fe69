//! What the answers of calls are, by the replies that the machine gives.

ghost use Rattle.std.specs.Prelude.{◌≡◌, ℕ, ◌+◌, Bool, List, [], ◌∷◌, Option, Some, slice_get, if◌then◌else◌};
ghost use Rattle.wasi_addr.specs.declared.address.IpAddress.{IpAddress};
ghost use Rattle.wasi_addr.specs.declared.address.IpSocketAddress.{IpSocketAddress};
ghost use Rattle.wasi_addr.specs.declared.address.SocketAddressFamily.{SocketAddressFamily};
ghost use Rattle.wasi_addr.specs.declared.p2.ErrorCode.{ErrorCode};
ghost use Rattle.wasi_world.specs.declared.datagram.IncomingDatagram.{IncomingDatagram};
ghost use Rattle.wasi_steps.specs.Reply.{address_values, found_values, datagram_values, bytes_fields};
ghost use Rattle.wasi_steps.specs.Reply.{numbers_fields, number_fields, pair_fields, triple_fields};
ghost use Rattle.wasi_steps.specs.Reply.{truth_fields, family_fields, word_of_p2};
ghost use Rattle.wasi_steps.specs.Replies.{code_text};
ghost use Rattle.embed_flat.specs.Abi.{Truth, U8, U32, U64, AList};
ghost use Rattle.embed_flat.specs.Answers.{code_value, done_answer, done, plain, returned};
ghost use Rattle.embed_flat.specs.Values.{address_value, found_value, datagram_value, family_case};
ghost use Rattle.embed_flat.specs.Wit.{option, pair, triple, error_code, error_code_names, stream_error};
ghost use Rattle.embed_flat.specs.Wit.{ip_address, ip_socket_address, incoming_datagram};

use crate::shape::Shape;
use wasi_steps::Reply;

/// The value that is stored is the one that the reply tells: of an address its own port, parts,
/// flow info and scope, and so on.
pub fn answers_are_what_replies_tell()
    ensures address { (a : IpSocketAddress) (place : ℕ) →
        done_answer Shape.Address (address_values a) place
        ≡ done ip_socket_address error_code (address_value a) }
    ensures found { (a : Option IpAddress) (place : ℕ) →
        done_answer Shape.MaybeIp (found_values a) place
        ≡ done (option ip_address) error_code (found_value a) }
    ensures none_came { (place : ℕ) → done_answer Shape.Datagrams (datagram_values []) place
        ≡ done (AList incoming_datagram) error_code (place, []) }
    ensures one_came { (d : IncomingDatagram) (place : ℕ) →
        done_answer Shape.Datagrams (datagram_values (d ∷ [])) place
        ≡ done (AList incoming_datagram) error_code (place, datagram_value d (place + 40) ∷ []) }
    ensures bytes { (bs : List ℕ) (place : ℕ) →
        done_answer Shape.StreamBytes (bytes_fields bs) place
        ≡ done (AList U8) stream_error (place, bs) }
    ensures places { (ns : List ℕ) (place : ℕ) →
        done_answer Shape.Places (numbers_fields ns) place ≡ plain (AList U32) (place, ns) }
    ensures truth { (b : Bool) (place : ℕ) →
        done_answer Shape.Truth (truth_fields b) place ≡ done Truth error_code b }
    ensures byte { (n place : ℕ) →
        done_answer Shape.Byte (number_fields n) place ≡ done U8 error_code n }
    ensures word { (n place : ℕ) →
        done_answer Shape.Word (number_fields n) place ≡ done U32 error_code n }
    ensures wide { (n place : ℕ) →
        done_answer Shape.Wide (number_fields n) place ≡ done U64 error_code n }
    ensures stream_wide { (n place : ℕ) →
        done_answer Shape.StreamWide (number_fields n) place ≡ done U64 stream_error n }
    ensures two { (a b place : ℕ) →
        done_answer Shape.Pair (pair_fields a b) place ≡ done pair error_code (a, (b, tt)) }
    ensures three { (a b c place : ℕ) → done_answer Shape.Triple (triple_fields a b c) place
        ≡ done triple error_code (a, (b, (c, tt))) }
    ensures truth_returned { (b : Bool) → returned Shape.Flat (Reply.Ok (truth_fields b))
        ≡ (if b then 1 else 0) }
    ensures number_returned { (n : ℕ) → returned Shape.Flat (Reply.Ok (number_fields n)) ≡ n }
    ensures family { (f : SocketAddressFamily) →
        returned Shape.Family (Reply.Ok (family_fields f)) ≡ family_case f }
{}

/// The number of a code is its place among the cases of `error-code`.
pub fn codes_are_cases()
    ensures { (code : ErrorCode) → slice_get error_code_names (code_value (word_of_p2 code)).0
        ≡ Some (code_text (word_of_p2 code)) }
{}
