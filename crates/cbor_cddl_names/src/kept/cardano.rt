//! The text of `share/names/cardano.cddl`. `checks/page_files --write` makes this file from it.

/// The file.
pub(crate) const CARDANO: &str =
    "; Names in transactions and blocks of Cardano (the ledger's CDDL of the Conway era), for
; cborcat --names=cardano --as=transaction. This says which key has which name, and what is
; inside; it does not say what may be left out or repeated.

transaction = [
  body: transaction_body,
  witness_set: transaction_witness_set,
  is_valid: bool,
  auxiliary_data: any,
]
block = [
  header: any,
  transaction_bodies: [* transaction_body],
  transaction_witness_sets: [* transaction_witness_set],
  auxiliary_data_set: any,
  invalid_transactions: any,
]
transaction_body = {
  &( inputs: 0 ) => [* transaction_input],
  &( outputs: 1 ) => [* transaction_output],
  &( fee: 2 ) => uint,
  &( ttl: 3 ) => uint,
  &( certificates: 4 ) => any,
  &( withdrawals: 5 ) => any,
  &( auxiliary_data_hash: 7 ) => bstr,
  &( validity_interval_start: 8 ) => uint,
  &( mint: 9 ) => any,
  &( script_data_hash: 11 ) => bstr,
  &( collateral: 13 ) => [* transaction_input],
  &( required_signers: 14 ) => any,
  &( network_id: 15 ) => uint,
  &( collateral_return: 16 ) => transaction_output,
  &( total_collateral: 17 ) => uint,
  &( reference_inputs: 18 ) => [* transaction_input],
  &( voting_procedures: 19 ) => any,
  &( proposal_procedures: 20 ) => any,
  &( current_treasury_value: 21 ) => uint,
  &( donation: 22 ) => uint,
}
transaction_input = [transaction_id: bstr, index: uint]

; Since the era of Babbage; those before it are arrays.
transaction_output = {
  &( address: 0 ) => bstr,
  &( value: 1 ) => any,
  &( datum_option: 2 ) => any,
  &( script_ref: 3 ) => any,
}

transaction_witness_set = {
  &( vkeywitness: 0 ) => [* vkeywitness],
  &( native_script: 1 ) => any,
  &( bootstrap_witness: 2 ) => any,
  &( plutus_v1_script: 3 ) => any,
  &( plutus_data: 4 ) => any,
  &( redeemers: 5 ) => any,
  &( plutus_v2_script: 6 ) => any,
  &( plutus_v3_script: 7 ) => any,
}
vkeywitness = [vkey: bstr, signature: bstr]
";
