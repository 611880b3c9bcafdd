use program_maker::make;
use std::test::Fail;

/// The text for number 0 and size 1.
const ONE_TRANSFER: &[u8] = b"(defn move [from to n] (dosync (alter from - n) (alter to + n) nil))
(defn total [refs i sum] (if (= i (count refs)) sum (total refs (inc i) (+ sum @(nth refs i)))))
(def counter (behavior [left refs] [] (if (= left 1) (println \"total\" (dosync (total refs 0 0))) (become counter (dec left) refs))))
(def teller (behavior [done refs] [i j n] (move (nth refs i) (nth refs j) n) (send done)))
(def refs (loop [v [] i 0] (if (= i 100) v (recur (conj v (ref 1000)) (inc i)))))
(def done (spawn counter 1 refs))
(def t0 (spawn teller done refs))
(def t1 (spawn teller done refs))
(def t2 (spawn teller done refs))
(def t3 (spawn teller done refs))
(def t4 (spawn teller done refs))
(def t5 (spawn teller done refs))
(def t6 (spawn teller done refs))
(def t7 (spawn teller done refs))
(send t0 68 88 18)
";

#[test]
fn a_program_of_one_transfer(rt: HostRuntime) -> Result<(), Fail> {
    assert_eq!(rt; make(rt.alloc(), 0, 1)?.items(), ONE_TRANSFER);
    Ok(())
}

#[test]
fn a_thousand_transfers_begin_and_end_as_drawn(rt: HostRuntime) -> Result<(), Fail> {
    let text = make(rt.alloc(), 7, 1000)?;
    assert_eq!(rt; text.items().len(), 19_359);
    assert!(rt;
        contains(
            text.items(),
            b"\n(def done (spawn counter 1000 refs))\n(def t0 (spawn teller done refs))\n",
        )
    );
    assert!(rt;
        contains(
            text.items(),
            b"\n(def t7 (spawn teller done refs))\n(send t4 6 68 25)\n(send t3 65 34 41)\n(send t1 13 13 14)\n(send t6 74 49 23)\n",
        )
    );
    assert!(rt;
        text.items()
            .ends_with(b"\n(send t6 19 35 27)\n(send t2 49 6 40)\n")
    );
    Ok(())
}

#[test]
fn the_greatest_number_is_drawn_from(rt: HostRuntime) -> Result<(), Fail> {
    let text = make(rt.alloc(), 2_147_483_647, 3)?;
    assert!(rt;
        text.items().ends_with(
            b"refs))\n(send t1 9 62 19)\n(send t1 26 80 14)\n(send t0 34 73 20)\n"
        )
    );
    Ok(())
}

#[test]
fn ten_thousand_transfers_are_made(rt: HostRuntime) -> Result<(), Fail> {
    let text = make(rt.alloc(), 2_147_483_647, 10_000)?;
    assert_eq!(rt; text.items().len(), 186_962);
    assert!(rt;
        text.items().ends_with(b"\n(send t4 53 38 18)\n(send t1 10 76 30)\n(send t5 7 99 17)\n")
    );
    Ok(())
}

/// Whether the piece stands in the text.
fn contains(text: &[u8], piece: &[u8]) -> bool {
    (0..text.len()).any(|start| text[start..].starts_with(piece))
}
