ghost use Rattle.std.specs.Prelude.{◌≡◌, ◌∷◌, ◌++◌, map, flat_map, IfOk, OnOk};
ghost use Rattle.std.specs.List.{range_with_len};
ghost use Rattle.program_maker.specs.MadeText.{common_lines, counter_line, line_of, made_text, teller_line, transfer, transfer_line};

use crate::draws::Draws;
use crate::line::push_line;
use crate::transfer::Transfer;
use itoa::Buffer;
use std::alloc::{AllocError, Global};
use value_core::Text;

/// The lines that stand in each program.
const COMMON: &[u8] = b"\
(defn move [from to n] (dosync (alter from - n) (alter to + n) nil))
(defn total [refs i sum] (if (= i (count refs)) sum (total refs (inc i) (+ sum @(nth refs i)))))
(def counter (behavior [left refs] [] (if (= left 1) (println \"total\" (dosync (total refs 0 0))) (become counter (dec left) refs))))
(def teller (behavior [done refs] [i j n] (move (nth refs i) (nth refs j) n) (send done)))
(def refs (loop [v [] i 0] (if (= i 100) v (recur (conj v (ref 1000)) (inc i)))))
";

/// How many tellers make transfers.
const TELLERS: u32 = 8;

/// The text of a program that makes `size` transfers between 100 refs, drawn by chance from `number`, and prints at the
/// end what all refs hold together.
pub fn make(alloc: Global, number: u32, size: u32) -> Result<Text, AllocError>
    ensures { IfOk result (λ text. text ≡ made_text number size) }
{
    let mut text = Text::new(alloc);
    push_definitions(&mut text, size)?;
    push_transfers(&mut text, number, size)?;
    Ok(text)
}

fn push_definitions(text: &mut Text, size: u32) -> Result<(), AllocError>
    ensures { OnOk result (text.new ≡ text.old ++ flat_map line_of (common_lines ++ counter_line size ∷ map teller_line (range_with_len 0 8))) }
{
    text.extend(COMMON)?;
    push_counter(text, size)?;
    for teller in 0..TELLERS {
        push_teller(text, teller)?;
    }
    Ok(())
}

fn push_counter(text: &mut Text, size: u32) -> Result<(), AllocError>
    ensures { OnOk result (text.new ≡ text.old ++ line_of (counter_line size)) }
{
    let mut buffer = Buffer::new();
    push_line(
        text,
        &[
            b"(def done (spawn counter ",
            buffer.format(size).as_bytes(),
            b" refs))",
        ],
    )
}

fn push_teller(text: &mut Text, teller: u32) -> Result<(), AllocError>
    ensures { OnOk result (text.new ≡ text.old ++ line_of (teller_line teller)) }
{
    let mut buffer = Buffer::new();
    push_line(
        text,
        &[
            b"(def t",
            buffer.format(teller).as_bytes(),
            b" (spawn teller done refs))",
        ],
    )
}

fn push_transfers(text: &mut Text, number: u32, size: u32) -> Result<(), AllocError>
    ensures { OnOk result (text.new ≡ text.old ++ flat_map line_of (map (λ index. transfer_line (transfer number index)) (range_with_len 0 size))) }
{
    let mut draws = Draws::new(number);
    for _index in 0..size {
        push_transfer(text, Transfer::choose(&mut draws))?;
    }
    Ok(())
}

fn push_transfer(text: &mut Text, transfer: Transfer) -> Result<(), AllocError>
    ensures { OnOk result (text.new ≡ text.old ++ line_of (transfer_line transfer)) }
{
    let mut teller = Buffer::new();
    let mut from = Buffer::new();
    let mut to = Buffer::new();
    let mut amount = Buffer::new();
    push_line(
        text,
        &[
            b"(send t",
            teller.format(transfer.teller).as_bytes(),
            b" ",
            from.format(transfer.from).as_bytes(),
            b" ",
            to.format(transfer.to).as_bytes(),
            b" ",
            amount.format(transfer.amount).as_bytes(),
            b")",
        ],
    )
}
